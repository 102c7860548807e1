ghost use Rattle.std.specs.Prelude.{◌≡◌, ◌<◌, ◌≤◌, [], length, MatchOption, MatchResult, slice_index_or};
ghost use Rattle.ordered.specs.Answers.{Sought};
ghost use Rattle.ordered.specs.Items.{items, capacity};
ghost use Rattle.ordered.specs.Order.{lookup, rank};

use super::OrderedList;
use crate::keyed::Keyed;

impl<'a, R: Keyed> OrderedList<'a, R> {
    // An empty list with room for as many records as the memory has.
    pub fn new(memory: &'a mut [R]) -> Self
        ensures empty { items result ≡ [] }
        ensures capacity { capacity result ≡ length memory.old }
    {
        OrderedList {
            records: memory,
            len: 0,
        }
    }

    pub fn len(&self) -> usize
        ensures count { result ≡ length (items self.now) }
        ensures within { result ≤ capacity self.now }
    {
        self.len
    }

    // The records, in order.
    pub fn as_slice(&self) -> &[R]
        ensures { result.now ≡ items self.now }
    {
        &self.records[..self.len]
    }

    pub fn get(&self, at: usize) -> Option<R>
        ensures { MatchOption result (length (items self.now) ≤ at) (λ x. (at < length (items self.now)) × ((d : R) → x ≡ slice_index_or (items self.now) at d)) }
    {
        self.as_slice().get(at).copied()
    }

    // How many records come before x: the place of the first that does not.
    pub fn lower_bound(&self, x: &R) -> usize
        ensures bound { result ≤ length (items self.now) }
        ensures ranked { result ≡ rank R.before x.now (items self.now) }
    {
        self.as_slice()
            .partition_point(|record| record.comes_before(x))
    }

    // The place of the record with x's key, or else the place where x would stand.
    pub fn binary_search(&self, x: &R) -> Result<usize, usize>
        ensures bound { MatchResult result (λ at. at < length (items self.now)) (λ at. at ≤ length (items self.now)) }
        ensures sought { Sought R.before x.now (items self.now) result }
    {
        let at = self.lower_bound(x);
        match self.as_slice().get(at) {
            Some(record) if !x.comes_before(record) => Ok(at),
            _ => Err(at),
        }
    }

    // The record with x's key.
    pub fn find(&self, x: &R) -> Option<R>
        ensures { result ≡ lookup R.before x.now (items self.now) }
    {
        self.get(self.binary_search(x).ok()?)
    }
}
