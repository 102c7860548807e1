ghost use Rattle.std.specs.Prelude.{◌+◌, ◌≤◌, length};

use arrayvec::ArrayVec;
use links::Link;

mod holding;
mod questions;
mod switching;

// A store, and the links that it is to have off and on besides: sixteen at most.
#[derive(Drop)]
pub struct HeldStore<S> {
    base: S,
    off: ArrayVec<Link, 16>,
    on: ArrayVec<Link, 16>,
    pub ghost few: { length off.items + length on.items ≤ 16 },
}
