// Reading a rule set: the words' number first, then the first pass over all words, then the second.
ghost use Rattle.std.specs.Prelude.{◌≡◌, List};
ghost use Rattle.rules.specs.Rules.{Rule};
ghost use Rattle.rules.specs.Marks.{passed, second_fault};
ghost use Rattle.rules.specs.Reading.{EachExact, Apart, RuleTold};
ghost use Rattle.rules.specs.Laws.{Lawful};
ghost use Rattle.rules.specs.Sets.{SetHere, ReadAs};

use crate::checking::check_rule;
use crate::faults::SetFault;
use crate::scanning::scan;
use crate::sets::RuleSet;
use words::Cause;

// The second pass over all rules.
fn check(set: RuleSet) -> Result<(), SetFault>
    ensures { (rs : List Rule) → SetHere set.entry rs → result ≡ passed (second_fault 0 0 rs) }
{
    let rules = (0..set.rules).map_while(|i| set.rule(i));
    for (i, rule) in rules.enumerate() {
        check_rule(rule).map_err(|found| found.in_rule(i))?;
    }
    Ok(())
}

// The set that the words say, or the first fault.
pub fn read<'a>(words: &'a [u32]) -> Result<RuleSet<'a>, SetFault>
    ensures answer { ReadAs words.now result }
    ensures exact { EachExact }
    ensures apart { Apart }
    ensures told { RuleTold }
    ensures laws { Lawful }
{
    if words.len() > 1024 {
        return Err(SetFault {
            place: 1024,
            rule: 0,
            cause: Cause::TooManyWords,
        });
    }
    let rules = scan(words)?;
    let set = RuleSet { words, rules };
    check(set)?;
    Ok(set)
}
