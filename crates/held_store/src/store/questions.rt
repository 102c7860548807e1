ghost use Rattle.std.specs.Prelude.{◌≡◌};
ghost use Rattle.held_store.specs.Meaning.{held_lawful, set_of};

use super::HeldStore;
use link_edits::{Edit, Edited};
use links::{Link, Links, Sizes, Store};

impl<S: Store> HeldStore<S> {
    // The set with the held changes counted.
    fn view(&self) -> Edited<'_, S>
        ensures base { result.base.now ≡ self.now.base }
        ensures off { result.edit.off.now ≡ self.now.off.items }
        ensures on { result.edit.on.now ≡ self.now.on.items }
    {
        Edited {
            base: &self.base,
            edit: Edit {
                off: self.off.as_slice(),
                on: self.on.as_slice(),
            },
        }
    }
}

impl<S: Store> Links for HeldStore<S> {
    ghost set = { set_of S.Links };

    ghost lawful = { held_lawful S.Links };

    fn sizes(&self) -> Sizes {
        self.base.sizes()
    }

    fn link_count(&self) -> usize {
        self.view().link_count()
    }

    fn is_on(&self, link: Link) -> bool {
        self.view().is_on(link)
    }

    fn next_target(&self, source: u32, label: u32, from: u32) -> Option<u32> {
        self.view().next_target(source, label, from)
    }

    fn next_source(&self, target: u32, label: u32, from: u32) -> Option<u32> {
        self.view().next_source(target, label, from)
    }
}
