ghost use Rattle.bit_store.specs.Laws.{bits_lawful, bits_set};

use super::BitStore;
use crate::bits::next_bit;
use links::{Link, Links, Sizes};

impl<'a> Links for BitStore<'a> {
    ghost set = { bits_set };

    ghost lawful = { bits_lawful };

    fn sizes(&self) -> Sizes {
        self.sizes
    }

    fn link_count(&self) -> usize {
        self.count
    }

    fn is_on(&self, link: Link) -> bool {
        let Some(place) = self.place_of(link) else {
            return false;
        };
        self.is_bit_on(place)
    }

    fn next_target(&self, source: u32, label: u32, from: u32) -> Option<u32> {
        let first = self.place_of(Link {
            source,
            label,
            target: from,
        })?;
        let row = first - from as usize;
        let end = row + 64 + self.sizes.things() as usize;
        next_bit(self.words, first, end).map(|place| (place - row) as u32)
    }

    fn next_source(&self, target: u32, label: u32, from: u32) -> Option<u32> {
        let start = from.max(64);
        let first = self.place_of(Link {
            source: start,
            label,
            target,
        })?;
        // The bits of one label and target are a stride apart, from source to source.
        let end = 64 + self.sizes.things();
        let stride = 16 * end as usize;
        (0..end - start)
            .find(|step| self.is_bit_on(first + *step as usize * stride))
            .map(|step| start + step)
    }
}
