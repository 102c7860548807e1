// The first pass over all words: numbers 10 to 13 and 16.
ghost use Rattle.std.specs.Prelude.{◌≡◌, ◌-◌, ◌<◌, ◌≤◌, length, take, drop, slice_index};
ghost use Rattle.words.specs.Steps.{has};
ghost use Rattle.rules.specs.Rules.{scanned};
ghost use Rattle.rules.specs.Scan.{counted};

use crate::faults::SetFault;
use words::{Cause, RuleFault, Stage, State};

pub fn scan(words: &[u32]) -> Result<usize, SetFault>
    requires { length words.now ≤ 1024 }
    ensures { result ≡ counted (scanned words.now) }
{
    let mut state = State::start();
    for (at, word) in words.iter().enumerate() {
        let repeats = repeated(words, at, state.seen);
        state = state.step(*word, repeats).map_err(|cause| SetFault {
            place: at,
            rule: state.rules,
            cause,
        })?;
    }
    match state.stage {
        Stage::Outside => Ok(state.rules),
        _ => Err(SetFault {
            place: words.len(),
            rule: state.rules,
            cause: Cause::InRule(RuleFault::OutOfPlace),
        }),
    }
}

// Is the word at `at` among the `seen` words before it?
fn repeated(words: &[u32], at: usize, seen: usize) -> bool
    requires { (at < length words.now) × (seen ≤ at) }
    ensures { result ≡ has (slice_index words.now at) (take seen (drop (at - seen) words.now)) }
{
    words[at - seen..at].contains(&words[at])
}
