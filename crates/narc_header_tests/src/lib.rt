//! Tests of headers and of what they hold. They stand in a crate of their own, so that the crates of headers are not proved
//! once more for them.
#![tactic(auto)]

#[cfg(test)]
mod tests;
