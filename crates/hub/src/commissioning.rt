// A hub before it is sealed.
ghost use Rattle.std.specs.Prelude.{◌≡◌, ◌≤◌, true};
ghost use Rattle.rules.specs.Reading.{accepted, rule_count};

mod calls;

// What a hub is made with: a plate number, a life of 1 to 268,435,455 and a row limit of 1 to 1,024.
#[derive(Clone, Copy, Debug, PartialEq, Eq)]
pub struct Terms {
    plate: u32,
    life: u32,
    rows: u32,
    ghost living: { (1 ≤ life) × (life ≤ 268435455) },
    ghost limited: { (1 ≤ rows) × (rows ≤ 1024) },
}

// Words that were read as a rule set, and how many rules they say.
#[derive(Drop)]
pub struct Accepted {
    words: Vec<u32>,
    rules: usize,
    ghost ok: { accepted words.items ≡ true },
    ghost counts: { rules ≡ rule_count words.items },
}

#[derive(Drop)]
pub struct Commissioning {
    terms: Terms,
    accepted: Accepted,
}
