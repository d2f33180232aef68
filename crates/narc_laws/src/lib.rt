//! What the jobs of the command are to each other. No code runs here.
#![tactic(auto)]

pub mod laws;
