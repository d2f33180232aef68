//! Tests of the command. They stand in a crate of their own, so that `narc_run` is proved once and not twice.
#![tactic(auto)]

#[cfg(test)]
mod tests;
