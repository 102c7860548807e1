ghost use Rattle.std.specs.Prelude.{◌≡◌, true, List};
ghost use Rattle.links.specs.Sets.{link_before, member, rising, touches};
ghost use Rattle.links.specs.declared.link.Link.{Link};
ghost use Rattle.links.specs.Order.{link_order};

use ordered::Keyed;

// A link from a thing, under a label, to a thing or a mark. Nodes below 64 are marks, the others things.
#[derive(Clone, Copy, PartialEq, Eq, PartialOrd, Ord, Default, Debug)]
pub struct Link {
    pub source: u32,
    pub label: u32,
    pub target: u32,
}

impl Link {
    // Whether the link begins or ends at the node.
    pub fn touches(&self, node: u32) -> bool
        ensures { result ≡ touches node self.now }
    {
        self.source == node || self.target == node
    }
}

// By source, then label, then target.
impl Keyed for Link {
    ghost before = { link_before };

    ghost order = { link_order };

    fn comes_before(&self, other: &Link) -> bool {
        self < other
    }
}

// Two rising lists of links with the same members are one list: a set of links has one form.
pub fn sets_are_determined()
    ensures { (xs ys : List Link) → rising xs ≡ true → rising ys ≡ true → ((l : Link) → member l xs ≡ member l ys) → xs ≡ ys }
{}
