ghost use Rattle.std.specs.Prelude.{◌≡◌, ◌+◌, ◌-◌, ◌<◌, ◌≤◌, ◌∷◌, ◌++◌, length, take, drop};
ghost use Rattle.ordered.specs.Answers.{Inserted};
ghost use Rattle.ordered.specs.Items.{items, capacity};
ghost use Rattle.ordered.specs.Order.{lookup, without};

use super::OrderedList;
use crate::keyed::Keyed;
use crate::refusal::InsertRefusal;

impl<'a, R: Keyed> OrderedList<'a, R> {
    pub fn insert(&mut self, x: R) -> Result<(), InsertRefusal>
        ensures capacity { capacity self.new ≡ capacity self.old }
        ensures inserted { Inserted R.before (capacity self.old) x (items self.old) result (items self.new) }
    {
        let Err(at) = self.binary_search(&x) else {
            return Err(InsertRefusal::AlreadyThere);
        };
        if self.len == self.records.len() {
            return Err(InsertRefusal::Full);
        }
        insert_at(self.records, at, self.len, x);
        self.len += 1;
        Ok(())
    }

    // Takes the record with x's key out, and answers it.
    pub fn remove(&mut self, x: &R) -> Option<R>
        ensures capacity { capacity self.new ≡ capacity self.old }
        ensures answer { result ≡ lookup R.before x.now (items self.old) }
        ensures removed { items self.new ≡ without R.before x.now (items self.old) }
    {
        let at = self.binary_search(x).ok()?;
        let found = self.get(at);
        remove_at(self.records, at, self.len);
        self.len -= 1;
        found
    }
}

// Puts x at `at` among the first `len` records, which it moves up by one from there.
fn insert_at<R: Drop>(records: &mut [R], at: usize, len: usize, x: R)
    requires { (at ≤ len) × (len < length records.old) }
    ensures { take (len + 1) records.new ≡ take at records.old ++ x ∷ drop at (take len records.old) }
{
    records[len] = x;
    let part = &mut records[at..len + 1];
    part.rotate_right(1);
}

// Takes the record at `at` out of the first `len`, which it moves down by one from there.
fn remove_at<R>(records: &mut [R], at: usize, len: usize)
    requires { (at < len) × (len ≤ length records.old) }
    ensures { take (len - 1) records.new ≡ take at records.old ++ drop (at + 1) (take len records.old) }
{
    let part = &mut records[at..len];
    part.rotate_left(1);
}
