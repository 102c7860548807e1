// The calls of a commissioning hub.
ghost use Rattle.std.specs.Prelude.{◌≡◌, []};
ghost use Rattle.hub.specs.Calls.{Asked, ReadsRules, WritesRules, Shows, held_words};

use super::{Accepted, Commissioning, Terms};
use crate::refusals::{HubRefusal, ReadRefusal, WriteRefusal};
use rules::{RuleSet, read};
use std::alloc::Global;

impl Terms {
    pub fn plate(self) -> u32
        ensures { result ≡ self.plate }
    {
        self.plate
    }

    pub fn life(self) -> u32
        ensures { result ≡ self.life }
    {
        self.life
    }

    pub fn rows(self) -> u32
        ensures { result ≡ self.rows }
    {
        self.rows
    }
}

impl Commissioning {
    // Asks for a hub; only the asking refuses.
    pub fn ask(plate: u32, life: u32, rows: u32) -> Result<Terms, HubRefusal>
        ensures { Asked plate life rows result }
    {
        if (1..=268435455).contains(&life) && (1..=1024).contains(&rows) {
            Ok(Terms { plate, life, rows })
        } else {
            Err(HubRefusal::OutOfRange)
        }
    }

    // A hub with no rules.
    pub fn new(heap: Global, terms: Terms) -> Commissioning
        ensures terms { result.terms ≡ terms }
        ensures words { held_words result ≡ [] }
    {
        let accepted = Accepted {
            words: Vec::new(heap),
            rules: 0,
        };
        Commissioning { terms, accepted }
    }

    pub fn terms(&self) -> Terms
        ensures { result ≡ self.now.terms }
    {
        self.terms
    }

    // The rule set that was read last.
    pub fn rules(&self) -> RuleSet<'_>
        ensures { Shows (held_words self.now) result }
    {
        RuleSet {
            words: self.accepted.words.as_slice(),
            rules: self.accepted.rules,
        }
    }

    // Reads a rule set in place of the one before, which a refusal leaves; answers how many rules.
    pub fn read_rules(&mut self, words: &[u32]) -> Result<usize, ReadRefusal>
        ensures words { ReadsRules words.now (held_words self.old) result (held_words self.new) }
        ensures terms { self.new.terms ≡ self.old.terms }
    {
        let set = read(words)?;
        let rules = set.rules;
        let kept = Vec::from_slice(*self.accepted.words.allocator(), words)?;
        self.accepted = Accepted { words: kept, rules };
        Ok(rules)
    }

    // Writes the rule set's words at the start of the buffer; answers how many.
    pub fn write_rules(&self, out: &mut [u32]) -> Result<usize, WriteRefusal>
        ensures { WritesRules (held_words self.now) out.old result out.new }
    {
        let words = self.accepted.words.as_slice();
        let count = words.len();
        if out.len() < count {
            return Err(WriteRefusal::Short);
        }
        out[..count].copy_from_slice(words);
        Ok(count)
    }
}
