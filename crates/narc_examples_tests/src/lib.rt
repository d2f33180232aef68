//! Tests of the examples. They stand in a crate of their own, so that the examples are not proved once more for them.
#![tactic(auto)]

#[cfg(test)]
mod tests;
