ghost use Rattle.std.specs.Prelude.{◌≡◌, length};
ghost use Rattle.links.specs.Answers.{Least, Spare, SwitchedOff, SwitchedOn};
ghost use Rattle.links.specs.Sets.{Lawful, LinkSet, link_of, member, touched};

use crate::link::Link;
use crate::sizes::Sizes;
use crate::switch_refusal::SwitchRefusal;

// A set of links that can be asked. No question changes it, and numbers outside the sizes are
// answered no or none.
pub trait Links {
    // The set that a value means, with its sizes.
    ghost set: { Self → LinkSet };

    // The sizes are in range, every link lies inside them, and the links rise.
    ghost lawful: { Lawful set };

    fn sizes(&self) -> Sizes
        ensures things { result.things ≡ (set self.now).things }
        ensures limit { result.limit ≡ (set self.now).limit };

    // The number of links.
    fn link_count(&self) -> usize
        ensures { result ≡ length (set self.now).links };

    fn is_on(&self, link: Link) -> bool
        ensures { result ≡ member link (set self.now).links };

    // The smallest target, not below `from`, that the source reaches under the label.
    fn next_target(&self, source: u32, label: u32, from: u32) -> Option<u32>
        ensures { Least (λ t. member (link_of source label t) (set self.now).links) from result };

    // The smallest source, not below `from`, that reaches the target under the label.
    fn next_source(&self, target: u32, label: u32, from: u32) -> Option<u32>
        ensures { Least (λ s. member (link_of s label target) (set self.now).links) from result };

    // Whether some link begins or ends at the thing.
    fn is_touched(&self, thing: u32) -> bool
        ensures { result ≡ touched thing (set self.now).links }
    {
        (0..16).any(|label| {
            self.next_target(thing, label, 0).is_some()
                || self.next_source(thing, label, 0).is_some()
        })
    }

    // Some thing that no link touches.
    fn spare_thing(&self) -> Option<u32>
        ensures { Spare (set self.now) result }
    {
        (64..64 + self.sizes().things()).find(|thing| !self.is_touched(*thing))
    }
}

// A set of links that can be changed, one link at a time; its sizes stay.
pub trait Store: Links {
    fn switch_on(&mut self, link: Link) -> Result<(), SwitchRefusal>
        ensures { SwitchedOn link (Self.Links.set self.old) result (Self.Links.set self.new) };

    fn switch_off(&mut self, link: Link) -> Result<(), SwitchRefusal>
        ensures { SwitchedOff link (Self.Links.set self.old) result (Self.Links.set self.new) };
}
