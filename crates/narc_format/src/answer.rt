//! What octets stand for, in one call.
ghost use Rattle.std.specs.Prelude.{◌≡◌, ◌%◌, ◌≤◌, length};
ghost use Rattle.narc_bits.specs.Bits.{bits};
ghost use Rattle.narc_bits.specs.Scan.{bits_left};
ghost use Rattle.narc_format.specs.Answer.{IsFrontAnswer, IsAllAnswer};

use crate::fault::Fault;
use crate::format::Format;
use crate::laws::{format_is_exact, tail_is_exact};
use crate::tail::Tail;
use narc_bits::{Cursor, Input, MAX_FRAME, Steps};
use std::marker::Brand;
use std::sync::ledger::{Blank, Ledger};

/// A value, and how many bits at the front of octets stand for it.
#[derive(Debug, Drop, PartialEq, Eq)]
pub struct Front<V> {
    pub value: V,
    pub bits: usize,
}

/// The value that a front of the octets stands for by the format `F`, or the fault with which they are refused.
///
/// It is the one answer: no other front stands for a value, and no other fault refuses the octets. A caller who counts
/// steps, or who reads from another bit on, calls `Format::read`.
pub fn read_front<'a, F: Format<Cursor<'a>>>(
    ctx: F::Ctx,
    octets: &'a [u8],
) -> Result<Front<F::Value>, Fault>
    requires sound { F.meaning.sound }
    requires small { length octets.now ≤ MAX_FRAME }
    ensures { IsFrontAnswer F.meaning ctx (bits octets.now) result }
{
    front_of::<Cursor<'a>, F>(ctx, Cursor::new(octets))
}

/// The value that all the octets stand for by the tail `F`, or the fault with which they are refused.
///
/// It is the one answer: the octets stand for no other value, and no other fault refuses them. A caller who counts steps
/// calls `Tail::read`.
pub fn read_all<'a, F: Tail<Cursor<'a>>>(ctx: F::Ctx, octets: &'a [u8]) -> Result<F::Value, Fault>
    requires sound { F.meaning.sound }
    requires small { length octets.now ≤ MAX_FRAME }
    ensures { IsAllAnswer F.meaning ctx (bits octets.now) result }
{
    all_of::<Cursor<'a>, F>(ctx, Cursor::new(octets))
}

fn front_of<I: Input, F: Format<I>>(ctx: F::Ctx, input: I) -> Result<Front<F::Value>, Fault>
    requires sound { F.meaning.sound }
    requires start { (I.scan input).place ≡ 0 }
    ensures { IsFrontAnswer F.meaning ctx (bits_left (I.scan input)) result }
{
    count_front::<I, F, Brand>(ctx, input, Blank::new(1))
}

fn count_front<I: Input, F: Format<I>, L: Ledger>(
    ctx: F::Ctx,
    mut input: I,
    blank: Blank,
) -> Result<Front<F::Value>, Fault>
    requires sound { F.meaning.sound }
    requires start { (I.scan input).place ≡ 0 }
    requires name { blank.name ≡ L.name }
    requires parts { blank.parts ≡ L.parts }
    requires one { blank.parts ≡ 1 }
    ensures { IsFrontAnswer F.meaning ctx (bits_left (I.scan input)) result }
{
    let mut steps: Steps<L> = Steps::new(blank);
    format_is_exact::<I, F>();
    match F::read(ctx, &mut input, &mut steps) {
        Ok(value) => Ok(Front {
            value,
            bits: input.place(),
        }),
        Err(fault) => Err(fault),
    }
}

fn all_of<I: Input, F: Tail<I>>(ctx: F::Ctx, input: I) -> Result<F::Value, Fault>
    requires sound { F.meaning.sound }
    requires aligned { (I.scan input).place % 8 ≡ 0 }
    ensures { IsAllAnswer F.meaning ctx (bits_left (I.scan input)) result }
{
    count_all::<I, F, Brand>(ctx, input, Blank::new(1))
}

fn count_all<I: Input, F: Tail<I>, L: Ledger>(
    ctx: F::Ctx,
    mut input: I,
    blank: Blank,
) -> Result<F::Value, Fault>
    requires sound { F.meaning.sound }
    requires aligned { (I.scan input).place % 8 ≡ 0 }
    requires name { blank.name ≡ L.name }
    requires parts { blank.parts ≡ L.parts }
    requires one { blank.parts ≡ 1 }
    ensures { IsAllAnswer F.meaning ctx (bits_left (I.scan input)) result }
{
    let mut steps: Steps<L> = Steps::new(blank);
    tail_is_exact::<I, F>();
    F::read(ctx, &mut input, &mut steps)
}
