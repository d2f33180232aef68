//! Tests of whole frames and of trials. They stand in a crate of their own, so that `narc_stack` and `narc_trial` are not proved
//! once more for them.
#![tactic(auto)]

#[cfg(test)]
mod tests;
