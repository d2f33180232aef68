//! What octets a format of whole octets stands for, and which rows of a table refuse the others: one lemma for each rule.
//!
//! The author of a protocol states a format's relation as octets of his own words, and its refusals as rows in the order in
//! which fields are judged (`narc_format::specs::Rows`, `FirstFault`). The proof that a type of rules has both is made of
//! these lemmas, in the order of the type:
//!
//! - A format of fixed length has a layout, `Layouts::IsLayout`: which values stand, their octets, their number, and the
//!   rows. A named field has one by `ScalarLayouts` (`word_layout`, `octets_layout`, `constant_layout`), two formats behind
//!   each other by `BothLayout`, and a format that is seen as another by `Views`. `narc_eth` is made of these alone.
//! - In a context it is `ContextLayouts::IsLayout`, of which `plain_layout` is the case without one; a tested number has it
//!   by `TestLayout`, and its name by `FieldLayout`. `ReadLayout::read_layout` goes on to the next.
//! - A format of any length is read, `ReadLayout::IsRead`: which octets are a value, how many of those that are left, and the
//!   rows; a tail by `IsTailRead`. There is a lemma for each rule: `seq_read`, `gap_read`, `named_read`, `stripped_read`,
//!   `tested_read`, `region_read`, `checked_read`, `measured_read`, `all_octets_read`, `padding_read`, and those of tails.
//!
//! `laws` has what rules such as `Gap` and `Checked` ask of their part. No code runs here.
#![tactic(auto)]

pub mod laws;
