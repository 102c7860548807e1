// One step of a reading: the state is only numbers.
ghost use Rattle.std.specs.Prelude.{◌≡◌, ◌^◌, ◌<◌, true};
ghost use Rattle.words.specs.Words.{item_of};
ghost use Rattle.words.specs.Steps.{in_range, link_in, share_in, link_next, share_next, run_opened, strike_next, listed, too_many, many, linked, tallied, next_of, judged, step_of, worded, Small, begun};

use crate::faults::{Cause, RuleFault};
use crate::items::{Item, PatternLink, Share, Target};
use crate::stages::{Stage, allowed};

// How far a reading has come: the rules ended, the open rule's variables, needs and bans, and of the open run of links,
// ban variables or strikes the variables that it may name, the most it may have, and how many were seen.
// Stays: a rule of the project, nothing is asked of a state: its counts saturate, and that they are small is a premise of each promise.
#[derive(Clone, Copy, Debug, PartialEq, Eq)]
pub struct State {
    pub stage: Stage,
    pub rules: usize,
    pub variables: u32,
    pub needs: usize,
    pub bans: usize,
    pub limit: u32,
    pub most: usize,
    pub seen: usize,
}

impl State {
    // The state before the first word.
    pub fn start() -> State
        ensures { result ≡ begun }
    {
        State {
            stage: Stage::Outside,
            rules: 0,
            variables: 0,
            needs: 0,
            bans: 0,
            limit: 0,
            most: 0,
            seen: 0,
        }
    }

    // One word read after those before; `repeats` tells whether the word stands in the open run already.
    pub fn step(self, word: u32, repeats: bool) -> Result<State, Cause>
        ensures { Small self → result ≡ step_of self word repeats }
    {
        let item = rule_item(word)?;
        self.judge(item, repeats)
    }

    // The smallest number that holds of an item, else the state that it leads to.
    fn judge(self, item: Item, repeats: bool) -> Result<State, Cause>
        ensures { Small self → result ≡ judged self item repeats (next_of self item) }
    {
        if !allowed(self.stage, item) {
            return Err(Cause::InRule(RuleFault::OutOfPlace));
        }
        if !self.in_range(item) {
            return Err(Cause::InRule(RuleFault::OutOfRange));
        }
        if repeats && is_listed(self.stage, item) {
            return Err(Cause::InRule(RuleFault::Twice));
        }
        if self.too_many(item) {
            return match item {
                Item::Opens(_) => Err(Cause::TooManyRules),
                _ => Err(Cause::InRule(RuleFault::TooMany)),
            };
        }
        Ok(self.next(item))
    }

    fn in_range(self, item: Item) -> bool
        ensures { result ≡ in_range self item }
    {
        match item {
            Item::Opens(n) => 1 <= n && n <= 6,
            Item::Link(link) => link_in_range(self.limit, link),
            Item::Bans(n) => 1 <= n && n <= 6,
            Item::Shares(share) => share_in_range(self.variables, share),
            Item::StrikesNeed(n) => (n as usize) < self.needs,
            Item::StrikesThing(n) => n < self.variables,
            Item::Makes(n) => n <= 4,
            Item::Ends => true,
        }
    }

    fn too_many(self, item: Item) -> bool
        ensures { result ≡ too_many self item }
    {
        match item {
            Item::Opens(_) => 16 <= self.rules,
            Item::Link(_) => self.most <= self.seen,
            Item::Bans(_) => 4 <= self.bans,
            Item::Shares(_)
            | Item::StrikesNeed(_)
            | Item::StrikesThing(_)
            | Item::Makes(_)
            | Item::Ends => false,
        }
    }

    fn next(self, item: Item) -> State
        ensures { Small self → in_range self item ≡ true → result ≡ next_of self item }
    {
        match item {
            Item::Opens(n) => {
                let opened = State {
                    variables: n,
                    needs: 0,
                    bans: 0,
                    ..self
                };
                opened.with_run(Stage::Opened, n, 12)
            }
            Item::Link(_) => self.after_link(),
            Item::Bans(n) => {
                let bans = self.bans.saturating_add(1);
                State { bans, ..self }.with_run(Stage::BanOpened, n, 8)
            }
            Item::Shares(_) => self.after_share(),
            Item::StrikesNeed(_) => match self.stage {
                Stage::StruckNeeds => self.after_strike(Stage::StruckNeeds, self.seen),
                _ => self.after_strike(Stage::StruckNeeds, 0),
            },
            Item::StrikesThing(_) => match self.stage {
                Stage::StruckThings => self.after_strike(Stage::StruckThings, self.seen),
                _ => self.after_strike(Stage::StruckThings, 0),
            },
            Item::Makes(n) => {
                let limit = self.variables.saturating_add(n);
                self.with_run(Stage::MakesOpened, limit, 12)
            }
            Item::Ends => State {
                rules: self.rules.saturating_add(1),
                ..State::start()
            },
        }
    }

    fn after_link(self) -> State
        ensures { Small self → result ≡ link_next self }
    {
        let stage = match self.stage {
            Stage::Opened => Stage::Needs,
            Stage::BanReady => Stage::BanLinks,
            Stage::MakesOpened => Stage::Made,
            other => other,
        };
        let needs = match self.stage {
            Stage::Opened | Stage::Needs => self.seen.saturating_add(1),
            _ => self.needs,
        };
        State {
            stage,
            needs,
            seen: self.seen.saturating_add(1),
            ..self
        }
    }

    fn after_share(self) -> State
        ensures { Small self → result ≡ share_next self }
    {
        let full = self.seen.saturating_add(1) == self.limit as usize;
        let stage = if full {
            Stage::BanReady
        } else {
            Stage::BanOpened
        };
        let seen = if full { 0 } else { self.seen.saturating_add(1) };
        State {
            stage,
            seen,
            ..self
        }
    }

    // A run of links or of ban variables begins.
    fn with_run(self, stage: Stage, limit: u32, most: usize) -> State
        ensures { result ≡ run_opened self stage limit most }
    {
        State {
            stage,
            limit,
            most,
            seen: 0,
            ..self
        }
    }

    // A strike follows `before` strikes of its kind.
    fn after_strike(self, stage: Stage, before: usize) -> State
        ensures { before < 2 ^ 32 → result ≡ strike_next self stage before }
    {
        State {
            stage,
            limit: 0,
            most: 0,
            seen: before.saturating_add(1),
            ..self
        }
    }
}

fn link_in_range(limit: u32, link: PatternLink) -> bool
    ensures { result ≡ link_in limit link }
{
    let end = match link.target {
        Target::Variable(v) => v < limit,
        Target::Mark(m) => m < 64,
    };
    link.label < 16 && link.source < limit && end
}

fn share_in_range(variables: u32, share: Share) -> bool
    ensures { result ≡ share_in variables share }
{
    match share {
        Share::New => true,
        Share::With(variable) => variable < variables,
        Share::Neither(_) => false,
    }
}

// Is a second item alike a fault at this stage?
fn is_listed(stage: Stage, item: Item) -> bool
    ensures { result ≡ listed stage item }
{
    match (item, stage) {
        (Item::Link(_), _) => true,
        (Item::StrikesNeed(_), Stage::StruckNeeds) => true,
        (Item::StrikesThing(_), Stage::StruckThings) => true,
        _ => false,
    }
}

fn rule_item(word: u32) -> Result<Item, RuleFault>
    ensures { result ≡ worded (item_of word) }
{
    let item = Item::try_from(word)?;
    Ok(item)
}
