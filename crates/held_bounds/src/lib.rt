// The layer over each store, and over a layer, through the same steps.
#![tactic(auto)]

#[cfg(test)]
mod tests;
