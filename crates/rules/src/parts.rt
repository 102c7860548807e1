// One rule's words, and the parts of it, each a run of the given words.
ghost use Rattle.std.specs.Prelude.{◌≡◌, ◌+◌, ◌≤◌, length, take, drop};
ghost use Rattle.rules.specs.Rules.{Rule, rule_words, bans_words};
ghost use Rattle.rules.specs.Formed.{FormedRule};
ghost use Rattle.rules.specs.Parts.{RuleAt, pieces, pieces_words};
ghost use Rattle.rules.specs.Handed.{PartAt, PartIs, Cut, BanIs, LinksAre, ban_of};

use crate::bans::BanRun;
use crate::runs::{Run, first_number, part_end};
use words::Kind;

// One rule's words, and the place of the first.
// Stays: a rule of the project, nothing is asked of the words; so what they say is a premise of each promise, and no invariant.
#[derive(Clone, Copy, Debug, PartialEq, Eq)]
pub struct RuleRun<'a> {
    pub place: usize,
    pub words: &'a [u32],
}

// A part of a rule: all its needs, one ban, all its strikes, or its makes.
#[derive(Clone, Copy, Debug, PartialEq, Eq)]
pub enum Part<'a> {
    Need(Run<'a>),
    Ban(BanRun<'a>),
    Strike(Run<'a>),
    Makes(Run<'a>),
}

impl<'a> RuleRun<'a> {
    pub fn variables(self) -> u32
        ensures { (r : Rule) → RuleAt self.entry r → result ≡ r.variables }
    {
        first_number(self.words)
    }

    // Part number `i`, counted from 0 in the order of the words; a rule has at most seven.
    pub fn part(self, i: usize) -> Option<Part<'a>>
        ensures { (r : Rule) → RuleAt self.entry r → PartIs (self.entry.place + 1 + length (pieces_words (take i (pieces r)))) (drop i (pieces r)) result }
    {
        if i >= 7 {
            return None;
        }
        let at = part_start(self.words, i);
        let end = part_end(self.words, at);
        cut(self, at, end)
    }

    // Ban number `i`, counted from 0; a rule has at most four.
    pub fn ban(self, i: usize) -> Option<BanRun<'a>>
        ensures { (r : Rule) → RuleAt self.entry r → BanIs r.variables (self.entry.place + 1 + length r.needs + length (bans_words (take i r.bans))) (drop i r.bans) result }
    {
        if i >= 4 {
            return None;
        }
        as_ban(self.part(i + 1))
    }

    // A word for each need.
    pub fn needs(self) -> Run<'a>
        ensures { (r : Rule) → RuleAt self.entry r → LinksAre (self.entry.place + 1) r.needs result }
    {
        Run {
            place: self.place,
            words: self.words,
        }
        .after_first(Kind::LinkToVariable..=Kind::LinkToMark)
    }
}

fn as_ban<'a>(part: Option<Part<'a>>) -> Option<BanRun<'a>>
    ensures { result ≡ ban_of part.entry }
{
    match part {
        Some(Part::Ban(ban)) => Some(ban),
        _ => None,
    }
}

// Where part `i` of a rule begins; at the rule's last word if there is no such part.
fn part_start(words: &[u32], i: usize) -> usize
    ensures within { result ≤ length words.now }
    ensures start { (r : Rule) → FormedRule r → words.now ≡ rule_words r → PartAt words.now r i result }
{
    (0..i).fold(words.len().min(1), |at, _| part_end(words, at))
}

// The part from `at` to `end`, by the kind of its first word.
fn cut<'a>(rule: RuleRun<'a>, at: usize, end: usize) -> Option<Part<'a>>
    requires { (at ≤ end) × (end ≤ length rule.words.now) }
    ensures { Cut rule.entry.place rule.entry.words.now at end result }
{
    if at == rule.words.len() {
        return None;
    }
    let place = rule.place.saturating_add(at);
    let words = &rule.words[at..end];
    match Kind::of(rule.words[at]) {
        Some(Kind::LinkToVariable | Kind::LinkToMark) => Some(Part::Need(Run { place, words })),
        Some(Kind::Bans) => Some(Part::Ban(BanRun { place, words })),
        Some(Kind::StrikesNeed | Kind::StrikesThing) => Some(Part::Strike(Run { place, words })),
        Some(Kind::Makes) => Some(Part::Makes(Run { place, words })),
        _ => None,
    }
}
