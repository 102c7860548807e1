// The links of one node, seen from the node.
ghost use Rattle.std.specs.Prelude.{◌≡◌};
ghost use Rattle.links.specs.Answers.{Least};
ghost use Rattle.links.specs.Sets.{member};
ghost use Rattle.link_edits.specs.Adjacencies.{other_end, link_to};

use links::{Link, Links};

// From a node along its links to their targets, or against them to their sources.
#[derive(Clone, Copy, PartialEq, Eq, Debug)]
pub enum Direction {
    Outgoing,
    Incoming,
}

// The links of a node under a label, in one direction.
#[derive(Clone, Copy, PartialEq, Eq, Debug)]
pub struct Adjacency {
    pub direction: Direction,
    pub node: u32,
    pub label: u32,
}

impl Adjacency {
    // The link between the node and another.
    pub fn link_to(self, other: u32) -> Link
        ensures { result ≡ link_to self other }
    {
        let label = self.label;
        match self.direction {
            Direction::Outgoing => Link {
                source: self.node,
                label,
                target: other,
            },
            Direction::Incoming => Link {
                source: other,
                label,
                target: self.node,
            },
        }
    }

    // The node at the other end of a link.
    pub fn other_end(self, link: Link) -> u32
        ensures { result ≡ other_end self.direction link }
    {
        match self.direction {
            Direction::Outgoing => link.target,
            Direction::Incoming => link.source,
        }
    }

    // The smallest node, not below `from`, that a link of the graph joins to this one.
    pub fn next<L: Links>(self, graph: &L, from: u32) -> Option<u32>
        ensures { Least (λ t. member (link_to self t) (L.set graph.now).links) from result }
    {
        match self.direction {
            Direction::Outgoing => graph.next_target(self.node, self.label, from),
            Direction::Incoming => graph.next_source(self.node, self.label, from),
        }
    }
}
