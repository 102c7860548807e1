// One ban's words: its variables, which of them are shared, and its links.
ghost use Rattle.std.specs.Prelude.{◌≡◌, ℕ, ◌+◌, ◌≤◌, length};
ghost use Rattle.rules.specs.Rules.{Ban};
ghost use Rattle.rules.specs.Parts.{BanAt};
ghost use Rattle.rules.specs.Handed.{LinksAre, SharesAre};

use crate::runs::{Run, first_number, run_end};
use words::Kind;

// One ban's words, and the place of the first.
// Stays: a rule of the project, nothing is asked of the words; so what they say is a premise of each promise, and no invariant.
#[derive(Clone, Copy, Debug, PartialEq, Eq)]
pub struct BanRun<'a> {
    pub place: usize,
    pub words: &'a [u32],
}

impl<'a> BanRun<'a> {
    pub fn variables(self) -> u32
        ensures { (n : ℕ) (b : Ban) → BanAt self.entry n b → result ≡ b.variables }
    {
        first_number(self.words)
    }

    // A word for each variable.
    pub fn shares(self) -> Run<'a>
        ensures { (n : ℕ) (b : Ban) → BanAt self.entry n b → SharesAre (self.entry.place + 1) b.shares result }
    {
        Run {
            place: self.place,
            words: self.words,
        }
        .after_first(Kind::Shares..=Kind::Shares)
    }

    // A word for each link.
    pub fn links(self) -> Run<'a>
        ensures { (n : ℕ) (b : Ban) → BanAt self.entry n b → LinksAre (self.entry.place + 1 + length b.shares) b.links result }
    {
        let from = self.words.len().min(1);
        let end = run_end(self.words, from, Kind::Shares..=Kind::Shares);
        Run {
            place: self.place.saturating_add(end),
            words: &self.words[end..],
        }
    }
}
