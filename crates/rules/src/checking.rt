// The second pass over one rule: numbers 14, 15 and 17.
// Stays: a rule of the project, nothing is asked of the words; so what they say is a premise of each promise, and no invariant.
ghost use Rattle.std.specs.Prelude.{◌≡◌, ℕ, ◌+◌, ◌≤◌, ◌&&◌, map, length, nat_eq};
ghost use Rattle.words.specs.Words.{link_of};
ghost use Rattle.rules.specs.Rules.{Ban, Rule, thing_words};
ghost use Rattle.rules.specs.Anchors.{some, touches};
ghost use Rattle.rules.specs.Runs.{within};
ghost use Rattle.rules.specs.Parts.{RuleAt, BanAt};
ghost use Rattle.rules.specs.Marks.{passed, first_mark, ban_marks, bans_marks, rule_marks, made_mark, low_of, last_marks, last_place};

use crate::anchors::{check_links, check_shares, is_anchored, shares_any};
use crate::bans::BanRun;
use crate::faults::PlacedFault;
use crate::parts::RuleRun;
use crate::runs::{Run, is_of, run_end};
use words::{Kind, PatternLink, RuleFault, Target, low_byte};

fn check_ban(ban: BanRun) -> Result<(), PlacedFault>
    ensures { (n : ℕ) (b : Ban) → BanAt ban.entry n b → result ≡ passed (first_mark ban.entry.place (ban_marks b)) }
{
    let shares = ban.shares();
    let links = ban.links();
    if !is_anchored(ban.variables(), links.words) {
        return Err(PlacedFault {
            place: ban.place,
            fault: RuleFault::Unanchored,
        });
    }
    if !shares_any(shares.words) {
        return Err(PlacedFault {
            place: ban.place,
            fault: RuleFault::SharesNothing,
        });
    }
    check_shares(shares)?;
    check_links(shares.words, links)
}

fn check_bans(rule: RuleRun) -> Result<(), PlacedFault>
    ensures { (r : Rule) → RuleAt rule.entry r → result ≡ passed (first_mark (rule.entry.place + 1 + length r.needs) (bans_marks r.bans)) }
{
    for ban in (0..4).map_while(|i| rule.ban(i)) {
        check_ban(ban)?;
    }
    Ok(())
}

// The word of each struck thing.
fn struck_things<'a>(rule: RuleRun<'a>) -> &'a [u32]
    ensures { (r : Rule) → RuleAt rule.entry r → result.now ≡ thing_words r.struck_things }
{
    let from = run_end(rule.words, 0, Kind::Opens..=Kind::StrikesNeed);
    let end = run_end(rule.words, from, Kind::StrikesThing..=Kind::StrikesThing);
    &rule.words[from..end]
}

fn is_struck(v: u32, things: &[u32]) -> bool
    ensures { result ≡ some (nat_eq v) (map low_of things.now) }
{
    things
        .iter()
        .map(|word| low_byte(*word))
        .any(|thing| v == thing)
}

fn is_at_struck(things: &[u32], link: PatternLink) -> bool
    ensures { result ≡ touches (map low_of things.now) link }
{
    match link.target {
        Target::Variable(v) => is_struck(link.source, things) || is_struck(v, things),
        Target::Mark(_) => is_struck(link.source, things),
    }
}

// Does the word say a made link at a struck thing?
fn is_made_at_struck(things: &[u32], word: u32) -> bool
    ensures { result ≡ (within 2 3 word && touches (map low_of things.now) (link_of word)) }
{
    is_of(word, &(Kind::LinkToVariable..=Kind::LinkToMark))
        && is_at_struck(things, PatternLink::from(word))
}

// Refuses the first made link at a struck thing.
fn check_made(things: &[u32], words: Run) -> Result<(), PlacedFault>
    ensures { words.entry.place + length words.entry.words.now ≤ 1024 → result ≡ passed (first_mark words.entry.place (map (made_mark (map low_of things.now)) words.entry.words.now)) }
{
    words.check_words(
        |_, word| is_made_at_struck(things, word),
        RuleFault::MadeAtStruck,
    )
}

fn check_makes(rule: RuleRun) -> Result<(), PlacedFault>
    ensures { (r : Rule) → RuleAt rule.entry r → result ≡ passed (first_mark (last_place rule.entry.place r) (last_marks r)) }
{
    let from = run_end(rule.words, 0, Kind::Opens..=Kind::StrikesThing);
    let rest = Run {
        place: rule.place.saturating_add(from),
        words: &rule.words[from..],
    };
    check_made(struck_things(rule), rest)
}

// Refuses the first word of a rule that has a fault of the second pass.
pub fn check_rule(rule: RuleRun) -> Result<(), PlacedFault>
    ensures { (r : Rule) → RuleAt rule.entry r → result ≡ passed (first_mark rule.entry.place (rule_marks r)) }
{
    if !is_anchored(rule.variables(), rule.needs().words) {
        return Err(PlacedFault {
            place: rule.place,
            fault: RuleFault::Unanchored,
        });
    }
    check_bans(rule)?;
    check_makes(rule)
}
