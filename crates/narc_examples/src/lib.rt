//! Formats of one's own by example; `docs/RULES.md` explains them.
#![tactic(auto)]

pub mod beacon;
pub mod lamp;
pub mod lite;
pub mod message;
pub mod readings;
pub mod vxlan;
