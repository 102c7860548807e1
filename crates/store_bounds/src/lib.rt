// The stores at the bounds of their sizes: both are taken through the same steps.
#![tactic(auto)]

#[cfg(test)]
mod tests;
