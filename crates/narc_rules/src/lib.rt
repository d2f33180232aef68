//! What a format of one's own needs, from one crate: the traits, the rules, and what reads and writes by them.
//! `specs/` hands on what a contract over a format cites, and the meanings of the rules; `proofs/` the lemmas for one's own
//! relations. `docs/RULES.md` explains the rules, and `narc_examples` uses them.
#![tactic(auto)]

mod sized;

pub use narc_bits::{Cursor, Input, MAX_FRAME, Steps, Writer};
pub use narc_compose::{
    Carry, Choose, Either, ForFirst, ForSecond, FormatPart, Gap, Measure, Measured, Named,
    NoContext, Part, Parted, PartedFormat, Pick, Seq, SeqTail, Strip, Then, Union,
};
pub use narc_format::{
    Fault, Field, Format, Front, Gather, Hole, Holed, HoledTail, Tail, Wide, Width, read_all,
    read_front,
};
pub use narc_layout::laws::{format_is_holed, format_is_wide, tail_is_holed};
pub use narc_list::{Bytes, Count, Counted, Pad, Region, Until};
pub use narc_scalar::{Const, EnumOf, Flag, Names, Octets4, Octets6, Test, Where, Word};
pub use narc_sum::{Always, Checked, CheckedOrNone, CheckedTail, Judge, NoPseudo, Pseudo};
pub use sized::{AnyNumber, AsMany, NumberFirst, SizedBytes};
