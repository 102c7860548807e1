ghost use Rattle.std.specs.Prelude.{◌≡◌, ℕ, ◌+◌, ◌<◌, ◌≤◌};
ghost use Rattle.links.specs.Numbers.{Asked};
ghost use Rattle.links.specs.Sets.{inside, InRange};

use super::Sizes;
use crate::link::Link;
use crate::make_refusal::MakeRefusal;

impl Sizes {
    // The sizes, if both are in range.
    pub fn ask(things: u32, limit: usize) -> Result<Sizes, MakeRefusal>
        ensures { Asked things limit (InRange things limit) result }
    {
        if !(1..=448).contains(&things) || !(1..=4096).contains(&limit) {
            return Err(MakeRefusal::OutOfRange);
        }
        Ok(Sizes { things, limit })
    }

    pub fn things(&self) -> u32
        ensures is { result ≡ self.now.things }
        ensures few { (1 ≤ result) × (result ≤ 448) }
    {
        self.things
    }

    pub fn limit(&self) -> usize
        ensures is { result ≡ self.now.limit }
        ensures few { (1 ≤ result) × (result ≤ 4096) }
    {
        self.limit
    }

    // Whether the link lies inside the sizes: its source is a thing, its target a thing or a mark.
    pub fn contain(&self, link: Link) -> bool
        ensures { result ≡ inside self.now.things link }
    {
        let end = 64 + self.things;
        link.source >= 64 && link.source < end && link.label < 16 && link.target < end
    }
}
