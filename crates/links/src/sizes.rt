ghost use Rattle.links.specs.Sets.{InRange};

mod checks;

// How many things a store knows, numbered from 64 on, and how many links it holds at most.
#[derive(Clone, Copy)]
pub struct Sizes {
    things: u32,
    limit: usize,
    ghost ranges: { InRange things limit },
}
