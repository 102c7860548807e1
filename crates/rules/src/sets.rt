// A rule set, lent: the accepted words, and each rule as a run of them.
ghost use Rattle.std.specs.Prelude.{◌≡◌, ◌≤◌, List, length, take, drop};
ghost use Rattle.std.specs.List.{AllByRecursion};
ghost use Rattle.rules.specs.Rules.{Rule, encode};
ghost use Rattle.rules.specs.Formed.{FormedRule};
ghost use Rattle.rules.specs.Runs.{rule_end};
ghost use Rattle.rules.specs.Handed.{RuleIs};
ghost use Rattle.rules.specs.Sets.{SetHere, RuleStart};

use crate::parts::RuleRun;
use crate::runs::run_end;
use words::Kind;

// The words of a rule set, and how many rules they say.
// Stays: a rule of the project, nothing is asked of the words; so what they say is a premise of each promise, and no invariant.
#[derive(Clone, Copy, Debug, PartialEq, Eq)]
pub struct RuleSet<'a> {
    pub words: &'a [u32],
    pub rules: usize,
}

impl<'a> RuleSet<'a> {
    // Rule number `i`, counted from 0.
    pub fn rule(self, i: usize) -> Option<RuleRun<'a>>
        ensures { (rs : List Rule) → SetHere self.entry rs → RuleIs (length (encode (take i rs))) (drop i rs) result }
    {
        if i >= self.rules {
            return None;
        }
        let place = rule_start(self.words, i);
        let end = rule_end(self.words, place);
        Some(RuleRun {
            place,
            words: &self.words[place..end],
        })
    }
}

// Where the rule that begins at `at` ends: after the next word that ends one.
fn rule_end(words: &[u32], at: usize) -> usize
    ensures end { at ≤ length words.now → result ≡ rule_end words.now at }
    ensures within { at ≤ length words.now → (at ≤ result) × (result ≤ length words.now) }
{
    let last = run_end(words, at, Kind::Opens..=Kind::Makes);
    if last < words.len() { last + 1 } else { last }
}

// Where rule `i` begins.
fn rule_start(words: &[u32], i: usize) -> usize
    ensures within { result ≤ length words.now }
    ensures start { (rs : List Rule) → AllByRecursion FormedRule rs → words.now ≡ encode rs → RuleStart words.now rs i result }
{
    (0..i).fold(0, |at, _| rule_end(words, at))
}
