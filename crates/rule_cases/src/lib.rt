// Rule words with what reading them answers: each fault at its first and last places, pairs of numbers on one word, each bound and one past it.
#![tactic(auto)]

#[cfg(test)]
mod last_places;
#[cfg(test)]
mod tests;
