//! Rules for single values: words, constants, flags, octets, tests and tables of names.
#![tactic(auto)]

mod constant;
mod flag;
mod names;
mod octets;
mod tested;
mod word;

pub use constant::Const;
pub use flag::Flag;
pub use names::{EnumOf, Names};
pub use octets::{Octets4, Octets6};
pub use tested::{Test, Where};
pub use word::Word;
