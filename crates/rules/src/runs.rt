// Runs of words by their kind, as parts of the caller's slice.
ghost use Rattle.std.specs.Prelude.{◌≡◌, ℕ, ◌+◌, ◌-◌, ◌*◌, ◌%◌, ◌≤◌, Bool, length, take, drop, slice_index};
ghost use Rattle.std.specs.Range.{range_inclusive_start, range_inclusive_end};
ghost use Rattle.words.specs.Words.{kind_number};
ghost use Rattle.rules.specs.Runs.{within, span, end_of, part_end};
ghost use Rattle.rules.specs.Handed.{RunIs};
ghost use Rattle.rules.specs.Marks.{passed, first_mark, marks_by};

use crate::faults::PlacedFault;
use std::ops::RangeInclusive;
use words::{Kind, RuleFault, low_byte};

// Some of the given words, and the place of the first.
// Stays: a run, a ban and a rule are three types of one shape, so that nobody asks of a ban what is a rule's; their fields
// are public, and so each has both.
#[derive(Clone, Copy, Debug, PartialEq, Eq)]
pub struct Run<'a> {
    pub place: usize,
    pub words: &'a [u32],
}

impl<'a> Run<'a> {
    // The words after the first, as far as they are of these kinds.
    pub(crate) fn after_first(self, kinds: RangeInclusive<Kind>) -> Run<'a>
        ensures { self.entry.place + length self.entry.words.now ≤ 1024 → 1 ≤ length self.entry.words.now → RunIs (self.entry.place + 1) (take (span (kind_number (range_inclusive_start kinds)) (kind_number (range_inclusive_end kinds)) (drop 1 self.entry.words.now)) (drop 1 self.entry.words.now)) result }
    {
        let from = self.words.len().min(1);
        let end = run_end(self.words, from, kinds);
        Run {
            place: self.place.saturating_add(1),
            words: &self.words[from..end],
        }
    }

    // Refuses the first word that has the fault, as the test says of a word and its number in the run.
    pub(crate) fn check_words<F: Fn(usize, u32) -> bool>(
        self,
        has_fault: F,
        fault: RuleFault,
    ) -> Result<(), PlacedFault>
        requires { F.IsAlwaysCallable has_fault }
        ensures { (t : ℕ → ℕ → Bool) → ((at w : ℕ) (b : Bool) → F.post has_fault at w b → b ≡ t at w) → self.entry.place + length self.entry.words.now ≤ 1024 → result ≡ passed (first_mark self.entry.place (marks_by t fault 0 self.entry.words.now)) }
    {
        let found = self
            .words
            .iter()
            .enumerate()
            .position(|(at, word)| has_fault(at, *word));
        match found {
            Some(at) => Err(PlacedFault {
                place: self.place.saturating_add(at),
                fault,
            }),
            None => Ok(()),
        }
    }
}

// The number that the first word of a rule or a ban says.
pub fn first_number(words: &[u32]) -> u32
    ensures { result ≡ slice_index words.now 0 % 256 }
{
    words.first().map_or(0, |word| low_byte(*word))
}

// Is the word of one of the kinds?
// Stays: the promise speaks of the format's numbers; of an order of `Kind` it would have to be shown that it is theirs.
pub fn is_of(word: u32, kinds: &RangeInclusive<Kind>) -> bool
    ensures { result ≡ within (kind_number (range_inclusive_start kinds.now)) (kind_number (range_inclusive_end kinds.now)) word }
{
    (kinds.start().number()..=kinds.end().number()).contains(&(word >> 28))
}

// Where the run of words of these kinds that begins at `from` ends: `from` itself where none begins.
pub fn run_end(words: &[u32], from: usize, kinds: RangeInclusive<Kind>) -> usize
    ensures end { from ≤ length words.now → result ≡ end_of (kind_number (range_inclusive_start kinds)) (kind_number (range_inclusive_end kinds)) words.now from }
    ensures within { from ≤ length words.now → (from ≤ result) × (result ≤ length words.now) }
{
    let Some(more) = words.get(from..) else {
        return from;
    };
    from + more.iter().take_while(|word| is_of(**word, &kinds)).count()
}

// Where the part of a rule that begins at `at` ends: `at` itself where none begins.
pub fn part_end(words: &[u32], at: usize) -> usize
    ensures end { at ≤ length words.now → result ≡ part_end words.now at }
    ensures within { at ≤ length words.now → (at ≤ result) × (result ≤ length words.now) }
{
    let Some(word) = words.get(at) else {
        return at;
    };
    match Kind::of(*word) {
        Some(Kind::LinkToVariable | Kind::LinkToMark) => {
            run_end(words, at, Kind::LinkToVariable..=Kind::LinkToMark)
        }
        Some(Kind::Bans) => {
            let links = run_end(words, at + 1, Kind::Shares..=Kind::Shares);
            run_end(words, links, Kind::LinkToVariable..=Kind::LinkToMark)
        }
        Some(Kind::StrikesNeed | Kind::StrikesThing) => {
            run_end(words, at, Kind::StrikesNeed..=Kind::StrikesThing)
        }
        Some(Kind::Makes) => run_end(words, at + 1, Kind::LinkToVariable..=Kind::LinkToMark),
        _ => at,
    }
}
