// What a set of links answers after an edit.
ghost use Rattle.std.specs.Prelude.{◌≡◌, not, ◌&&◌, length};
ghost use Rattle.ordered.specs.Order.{same};
ghost use Rattle.links.specs.Answers.{Least};
ghost use Rattle.links.specs.Sets.{inside, link_before, member};
ghost use Rattle.link_edits.specs.Adjacencies.{link_to, smaller};
ghost use Rattle.link_edits.specs.Edits.{after, without_all};
ghost use Rattle.link_edits.specs.Laws.{edited_lawful};

use crate::adjacency::{Adjacency, Direction};
use crate::edit::{Edit, is_same};
use links::{Link, Links, Sizes};

// The set of a base as an edit would leave it, with the edit not carried out.
#[derive(Drop)]
pub struct Edited<'a, L> {
    pub base: &'a L,
    pub edit: Edit<'a>,
}

fn smaller_of(x: Option<u32>, y: Option<u32>) -> Option<u32>
    ensures { result ≡ smaller x y }
{
    match (x, y) {
        (Some(a), Some(b)) => Some(a.min(b)),
        (Some(a), None) => Some(a),
        (None, b) => b,
    }
}

// What one link to be on gives the search for the next node.
fn next_of_one(sizes: Sizes, link: Link, way: Adjacency, from: u32) -> Option<u32>
    ensures { Least (λ t. inside sizes.things (link_to way t) && same link_before (link_to way t) link) from result }
{
    let other = way.other_end(link);
    if other < from || !sizes.contain(link) {
        return None;
    }
    is_same(link, way.link_to(other)).then_some(other)
}

impl<'a, L: Links> Edited<'a, L> {
    // The set after other links are off and on.
    fn with(&self, off: &'a [Link], on: &'a [Link]) -> Edited<'a, L>
        ensures base { result.base.now ≡ self.now.base.now }
        ensures off { result.edit.off.now ≡ off.now }
        ensures on { result.edit.on.now ≡ on.now }
    {
        Edited {
            base: self.base,
            edit: Edit { off, on },
        }
    }

    // The next node by the links to be on.
    fn next_added(&self, way: Adjacency, from: u32) -> Option<u32>
        ensures { Least (λ t. inside (L.Links.set self.now.base.now).things (link_to way t) && member (link_to way t) self.now.edit.on.now) from result }
    {
        let sizes = self.base.sizes();
        let mut best = None;
        for link in self.edit.on {
            best = smaller_of(best, next_of_one(sizes, *link, way, from));
        }
        best
    }

    // The next node by the links of the base that are not to be off.
    fn next_kept(&self, way: Adjacency, from: u32) -> Option<u32>
        ensures { Least (λ t. not (member (link_to way t) self.now.edit.off.now) && member (link_to way t) (L.Links.set self.now.base.now).links) from result }
    {
        let mut at = from;
        while let Some(other) = way.next(self.base, at) {
            if !self.edit.takes_off(way.link_to(other)) {
                return Some(other);
            }
            at = other + 1;
        }
        None
    }

    // The smallest node, not below `from`, that a link joins to this one.
    fn next(&self, way: Adjacency, from: u32) -> Option<u32>
        ensures { Least (λ t. member (link_to way t) (after self.now.edit (L.Links.set self.now.base.now)).links) from result }
    {
        smaller_of(self.next_added(way, from), self.next_kept(way, from))
    }

    // The number of links of the base when those to be off are; a link told twice counts once.
    fn count_kept(&self) -> usize
        ensures { result ≡ length (without_all self.now.edit.off.now (L.Links.set self.now.base.now).links) }
    {
        let off = self.edit.off;
        let mut count = self.base.link_count();
        for (at, link) in off.iter().enumerate() {
            count -= usize::from(self.with(&off[..at], &[]).is_on(*link));
        }
        count
    }

    // Whether switching the link on gives a link more.
    fn gains(&self, link: Link) -> bool
        ensures { result ≡ (inside (L.Links.set self.now.base.now).things link && not (member link (after self.now.edit (L.Links.set self.now.base.now)).links)) }
    {
        self.sizes().contain(link) && !self.is_on(link)
    }
}

impl<'a, L: Links> Links for Edited<'a, L> {
    ghost set = { λ v. after v.edit (L.Links.set v.base.now) };

    ghost lawful = { edited_lawful L.Links };

    fn sizes(&self) -> Sizes {
        self.base.sizes()
    }

    fn link_count(&self) -> usize {
        let Edit { off, on } = self.edit;
        let mut count = self.count_kept();
        for (at, link) in on.iter().enumerate() {
            count += usize::from(self.with(off, &on[..at]).gains(*link));
        }
        count
    }

    fn is_on(&self, link: Link) -> bool {
        if self.edit.puts_on(self.sizes(), link) {
            return true;
        }
        !self.edit.takes_off(link) && self.base.is_on(link)
    }

    fn next_target(&self, source: u32, label: u32, from: u32) -> Option<u32> {
        let direction = Direction::Outgoing;
        self.next(
            Adjacency {
                direction,
                node: source,
                label,
            },
            from,
        )
    }

    fn next_source(&self, target: u32, label: u32, from: u32) -> Option<u32> {
        let direction = Direction::Incoming;
        self.next(
            Adjacency {
                direction,
                node: target,
                label,
            },
            from,
        )
    }
}
