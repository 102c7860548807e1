ghost use Rattle.std.specs.Prelude.{◌≡◌, ◌≤◌, true, length, take};
ghost use Rattle.ordered.specs.Order.{ascending};

use crate::keyed::Keyed;

mod changes;
mod questions;

// Records that rise by their keys, at the front of lent memory: the first `len` of it.
// Stays: the caller lends the memory, since there is no heap, and the list is the front of it.
#[derive(Drop)]
pub struct OrderedList<'a, R: Keyed> {
    records: &'a mut [R],
    len: usize,
    pub ghost fits: { len ≤ length records.now },
    pub ghost rises: { ascending R.before (take len records.now) ≡ true },
}
