ghost use Rattle.std.specs.Prelude.{◌≡◌, ℕ, ◌*◌, ◌/◌, ◌%◌, ◌^◌, ◌<◌, ◌≤◌, ◌≢◌, length};
ghost use Rattle.bit_store.specs.Places.{LeastBelow, bit_on};

// The first place from `from` on and below `end` whose bit is on, by whole words.
pub(crate) fn next_bit(words: &[u32], from: usize, end: usize) -> Option<usize>
    requires start { from < 32 * length words.now }
    requires within { end ≤ 32 * length words.now }
    requires few { (from ≤ 3670016) × (end ≤ 3670016) }
    ensures { LeastBelow (bit_on words.now) from end result }
{
    let rest = words[from / 32] >> (from % 32);
    let found = if rest != 0 {
        from + rest.trailing_zeros() as usize
    } else {
        let at = (from / 32 + 1..(end + 31) / 32).find(|at| words[*at] != 0)?;
        at * 32 + words[at].trailing_zeros() as usize
    };
    (found < end).then_some(found)
}

// The word with a bit on.
pub(crate) fn with_bit(word: u32, bit: usize) -> u32
    requires { bit < 32 }
    ensures here { result / 2 ^ bit % 2 ≡ 1 }
    ensures others { (j : ℕ) → (j ≢ bit) → result / 2 ^ j % 2 ≡ word / 2 ^ j % 2 }
{
    word | (1 << bit)
}

// The word with a bit off that was on.
pub(crate) fn without_bit(word: u32, bit: usize) -> u32
    requires small { bit < 32 }
    requires set { word / 2 ^ bit % 2 ≡ 1 }
    ensures here { result / 2 ^ bit % 2 ≡ 0 }
    ensures others { (j : ℕ) → (j ≢ bit) → result / 2 ^ j % 2 ≡ word / 2 ^ j % 2 }
{
    word ^ (1 << bit)
}
