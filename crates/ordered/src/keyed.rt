ghost use Rattle.std.specs.Prelude.{◌≡◌, Bool, true, List};
ghost use Rattle.ordered.specs.Order.{Exact, KeyOrder, ascending, has, lookup};

// A record with a total order of its keys; it may carry more than its key.
pub trait Keyed: Copy {
    // Whether the key of the first record comes before that of the second.
    ghost before: { Self → Self → Bool };

    fn comes_before(&self, other: &Self) -> bool
        ensures { result ≡ before self.now other.now };

    ghost order: { KeyOrder before };
}

// Two rising lists with the same record at each key are equal; where the key is the whole record,
// so are two rising lists with the same members.
pub fn lists_are_determined<R: Keyed>()
    ensures lookups { (xs ys : List R) → ascending R.before xs ≡ true → ascending R.before ys ≡ true → ((x : R) → lookup R.before x xs ≡ lookup R.before x ys) → xs ≡ ys }
    ensures members { Exact R.before → (xs ys : List R) → ascending R.before xs ≡ true → ascending R.before ys ≡ true → ((x : R) → has R.before x xs ≡ has R.before x ys) → xs ≡ ys }
{}
