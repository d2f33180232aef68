//! Tests of the outside: sources and sinks, captures, and texts. They stand in a crate of their own, so that the crates
//! that they test are proved once and not twice.
#![tactic(auto)]

#[cfg(test)]
mod tests;
