ghost use Rattle.std.specs.Prelude.{◌≡◌, ◌<◌, ◌≤◌, true, length};
ghost use Rattle.links.specs.Sets.{all_inside, rising};
ghost use Rattle.bit_store.specs.Places.{Placed, bit_on, links_in, places, words_for};

use links::{Link, Sizes};

mod making;
mod questions;
mod switching;

// A bit for each possible link, in words of lent memory, and how many of the bits are on.
#[derive(Drop)]
pub struct BitStore<'a> {
    words: &'a mut [u32],
    sizes: Sizes,
    count: usize,
    ghost long: { words_for sizes.things ≤ length words.now },
    ghost counted: { count ≡ length (links_in words.now sizes.things) },
    ghost few: { count ≤ sizes.limit },
    ghost rises: { rising (links_in words.now sizes.things) ≡ true },
    ghost within: { all_inside sizes.things (links_in words.now sizes.things) ≡ true },
}

impl<'a> BitStore<'a> {
    // The place of a link's bit, if the link lies inside the sizes.
    fn place_of(&self, link: Link) -> Option<usize>
        ensures { Placed self.now.sizes.things link result }
    {
        if !self.sizes.contain(link) {
            return None;
        }
        let row = (link.source - 64) * 16 + link.label;
        let nodes = 64 + self.sizes.things();
        Some(row as usize * nodes as usize + link.target as usize)
    }

    // Whether the bit at a place is on.
    fn is_bit_on(&self, place: usize) -> bool
        requires { place < places self.now.sizes.things }
        ensures { result ≡ bit_on self.now.words.now place }
    {
        (self.words[place / 32] >> (place % 32)) % 2 == 1
    }
}
