ghost use Rattle.list_store.specs.Laws.{list_lawful, list_set};

use super::ListStore;
use links::{Link, Links, Sizes};

impl<'a> Links for ListStore<'a> {
    ghost set = { list_set };

    ghost lawful = { list_lawful };

    fn sizes(&self) -> Sizes {
        self.sizes
    }

    fn link_count(&self) -> usize {
        self.list.len()
    }

    fn is_on(&self, link: Link) -> bool {
        self.list.binary_search(&link).is_ok()
    }

    fn next_target(&self, source: u32, label: u32, from: u32) -> Option<u32> {
        let first = Link {
            source,
            label,
            target: from,
        };
        let next = self.list.get(self.list.lower_bound(&first))?;
        (next.source == source && next.label == label).then_some(next.target)
    }

    fn next_source(&self, target: u32, label: u32, from: u32) -> Option<u32> {
        (from.max(64)..64 + self.sizes.things()).find(|source| {
            self.is_on(Link {
                source: *source,
                label,
                target,
            })
        })
    }

    // Stays: one pass over the links; with the trait's default a spare thing took 46 ms in place of 70 µs, of 448
    // things and 3,576 links.
    fn is_touched(&self, thing: u32) -> bool {
        self.list.as_slice().iter().any(|link| link.touches(thing))
    }
}
