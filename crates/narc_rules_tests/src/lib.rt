//! Tests of the rules, at concrete types. They stand in a crate of their own, so that no crate of rules is proved once more
//! for its tests.
#![tactic(auto)]

#[cfg(test)]
mod tests;
