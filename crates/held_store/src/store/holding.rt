ghost use Rattle.std.specs.Prelude.{◌≡◌};
ghost use Rattle.links.specs.Sets.{KeepsSizes, Within};
ghost use Rattle.held_store.specs.Layers.{Fresh, held_in, nothing_held, off_held, on_held, sent_down};
ghost use Rattle.held_store.specs.Meaning.{layer_of, set_of};

use super::HeldStore;
use arrayvec::ArrayVec;
use link_edits::{Edit, carry_out};
use links::{Link, Links, Store};

// Stays: that the sizes stay relates the set before to the set after, which no type can say; each call says it.
impl<S: Store> HeldStore<S> {
    // A layer that holds nothing.
    pub fn new(base: S) -> HeldStore<S>
        ensures base { result.base ≡ base }
        ensures layer { layer_of S.Links result ≡ nothing_held (S.Links.set base).links }
        ensures fresh { Fresh (layer_of S.Links result) }
    {
        HeldStore {
            base,
            off: ArrayVec::new(),
            on: ArrayVec::new(),
        }
    }

    // How many changes are held.
    pub fn held_count(&self) -> usize
        ensures { result ≡ held_in (layer_of S.Links self.now) }
    {
        self.off.len() + self.on.len()
    }

    // Sends the held changes down, those off before those on. The store below takes them all,
    // unless the set has more links than its limit, which switching does not make.
    pub(super) fn send_down(&mut self)
        ensures down { Within (set_of S.Links self.old) → S.Links.set self.new.base ≡ set_of S.Links self.old }
        ensures none { layer_of S.Links self.new ≡ nothing_held (S.Links.set self.new.base).links }
        ensures sizes { KeepsSizes (S.Links.set self.old.base) (S.Links.set self.new.base) }
    {
        let edit = Edit {
            off: self.off.as_slice(),
            on: self.on.as_slice(),
        };
        carry_out(&mut self.base, edit);
        self.off.clear();
        self.on.clear();
    }

    // Sends the held changes down, and answers how many there were.
    pub fn settle(&mut self) -> usize
        ensures told { result ≡ held_in (layer_of S.Links self.old) }
        ensures none { held_in (layer_of S.Links self.new) ≡ 0 }
        ensures down { Within (set_of S.Links self.old) → layer_of S.Links self.new ≡ sent_down (S.Links.set self.old.base).things (layer_of S.Links self.old) }
        ensures fresh { Fresh (layer_of S.Links self.new) }
        ensures links { Within (set_of S.Links self.old) → set_of S.Links self.new ≡ set_of S.Links self.old }
        ensures sizes { KeepsSizes (S.Links.set self.old.base) (S.Links.set self.new.base) }
    {
        let held = self.held_count();
        self.send_down();
        held
    }

    // Holds the link on; a seventeenth change first sends the others down.
    pub(super) fn hold_on(&mut self, link: Link)
        requires within { Within (set_of S.Links self.old) }
        ensures layer { layer_of S.Links self.new ≡ on_held (S.Links.set self.old.base).things link (layer_of S.Links self.old) }
        ensures sizes { KeepsSizes (S.Links.set self.old.base) (S.Links.set self.new.base) }
    {
        if self.held_count() < 16 {
            self.on.push(link);
            return;
        }
        self.send_down();
        self.on.push(link);
    }

    // Stays: like `hold_on`, but a set past its limit is a case that only this one has.
    // Holds the link off; a seventeenth change first sends the others down. A set past the limit,
    // which switching does not make, would not go down whole: the link is then switched off below.
    pub(super) fn hold_off(&mut self, link: Link)
        ensures layer { layer_of S.Links self.new ≡ off_held (S.Links.set self.old.base).things (S.Links.set self.old.base).limit link (layer_of S.Links self.old) }
        ensures sizes { KeepsSizes (S.Links.set self.old.base) (S.Links.set self.new.base) }
    {
        if self.held_count() < 16 {
            self.off.push(link);
            return;
        }
        if self.link_count() > self.base.sizes().limit() {
            let _ = self.base.switch_off(link);
            return;
        }
        self.send_down();
        self.off.push(link);
    }
}
