//! Tests of assignments, and of frames that are edited in place. They stand in a crate of their own, so that `narc_edit` and
//! `narc_patch` are not proved once more for them.
#![tactic(auto)]

#[cfg(test)]
mod tests;
