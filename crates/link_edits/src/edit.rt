ghost use Rattle.std.specs.Prelude.{◌≡◌, ◌&&◌};
ghost use Rattle.ordered.specs.Order.{same};
ghost use Rattle.links.specs.Sets.{inside, link_before, member};

use links::{Link, Sizes};

// Links to be off, and then links to be on.
#[derive(Clone, Copy)]
pub struct Edit<'a> {
    pub off: &'a [Link],
    pub on: &'a [Link],
}

impl<'a> Edit<'a> {
    // Whether the link is to be off.
    pub fn takes_off(self, link: Link) -> bool
        ensures { result ≡ member link self.entry.off.now }
    {
        contains(self.off, link)
    }

    // Whether the link lies inside the sizes and is to be on.
    pub fn puts_on(self, sizes: Sizes, link: Link) -> bool
        ensures { result ≡ (inside sizes.things link && member link self.entry.on.now) }
    {
        sizes.contain(link) && contains(self.on, link)
    }
}

pub fn is_same(link: Link, other: Link) -> bool
    ensures { result ≡ same link_before link other }
{
    link == other
}

// Whether the link is one of these; by `any`, since the library's `contains` is not inlined, and a survey over a layer asks
// this at each step.
pub fn contains(links: &[Link], link: Link) -> bool
    ensures { result ≡ member link links.now }
{
    links.iter().any(|other| *other == link)
}
