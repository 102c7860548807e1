ghost use Rattle.std.specs.Prelude.{◌≡◌};
ghost use Rattle.links.specs.Answers.{SwitchedOff, SwitchedOn};
ghost use Rattle.links.specs.Sets.{removed};
ghost use Rattle.held_store.specs.Layers.{Fresh, Held, turned_off, turned_on};
ghost use Rattle.held_store.specs.Meaning.{layer_of, set_of};

use super::HeldStore;
use arrayvec::ArrayVec;
use links::{Link, Links, Store, SwitchRefusal};

// Takes a held change back.
fn take_back(held: &mut ArrayVec<Link, 16>, link: Link)
    ensures { held.new.items ≡ removed link held.old.items }
{
    held.retain(|other| *other != link);
}

// Beside what every store promises: what is held and what lies below, and that each held change differs from what lies below.
impl<S: Store> Store for HeldStore<S> {
    fn switch_on(&mut self, link: Link) -> Result<(), SwitchRefusal>
        ensures switched { SwitchedOn link (set_of S.Links self.old) result (set_of S.Links self.new) }
        ensures layer { Held (layer_of S.Links self.old) (turned_on (S.Links.set self.old.base).things link (layer_of S.Links self.old)) result (layer_of S.Links self.new) }
        ensures fresh { Fresh (layer_of S.Links self.old) → Fresh (layer_of S.Links self.new) }
    {
        let sizes = self.base.sizes();
        if !sizes.contain(link) {
            return Err(SwitchRefusal::NoSuchLink);
        }
        if self.is_on(link) {
            return Err(SwitchRefusal::AlreadyOn);
        }
        if self.link_count() >= sizes.limit() {
            return Err(SwitchRefusal::Full);
        }
        if self.base.is_on(link) {
            take_back(&mut self.off, link);
        } else {
            self.hold_on(link);
        }
        Ok(())
    }

    fn switch_off(&mut self, link: Link) -> Result<(), SwitchRefusal>
        ensures switched { SwitchedOff link (set_of S.Links self.old) result (set_of S.Links self.new) }
        ensures layer { Held (layer_of S.Links self.old) (turned_off (S.Links.set self.old.base).things (S.Links.set self.old.base).limit link (layer_of S.Links self.old)) result (layer_of S.Links self.new) }
        ensures fresh { Fresh (layer_of S.Links self.old) → Fresh (layer_of S.Links self.new) }
    {
        if !self.base.sizes().contain(link) {
            return Err(SwitchRefusal::NoSuchLink);
        }
        if !self.is_on(link) {
            return Err(SwitchRefusal::NotOn);
        }
        let below = self.base.is_on(link);
        take_back(&mut self.on, link);
        if below {
            self.hold_off(link);
        }
        Ok(())
    }
}
