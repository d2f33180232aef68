//! A fixed number of octets.
#![tactic(auto, unfolding(crate::specs::Octets::fixed_octets))]

ghost use Rattle.std.specs.Prelude.{◌≡◌, ◌+◌, ◌*◌, ◌≤◌, length};
ghost use Rattle.narc_bits.specs.Bits.{bits, overlay};
ghost use Rattle.narc_scalar.specs.Octets.{fixed_octets};
ghost use Rattle.narc_scalar.specs.OctetsLaws.{fixed_octets_laws, fixed_octets_is_wide};

use narc_bits::{Input, MAX_FRAME, Steps, Writer};
use narc_format::{Fault, Format, Wide, Width};
use std::sync::ledger::Ledger;

/// Six octets.
///
/// It reads `[2, 0, 0, 0, 0, 1]` from these six octets, and what stands behind them stays.
/// It refuses five octets: unnamed, at bit 0.
pub struct Octets6;

/// Four octets.
///
/// It reads `[192, 0, 2, 1]` from these four octets, and what stands behind them stays.
/// It refuses three octets: unnamed, at bit 0.
pub struct Octets4;

/// Puts octets at any bit, and moves past them.
fn put_octets(octets: &[u8], room: &mut [u8], writer: &mut Writer)
    requires small { length room.old ≤ MAX_FRAME }
    requires enough { writer.old + length (bits octets.now) ≤ 8 * length room.old }
    ensures len { length room.new ≡ length room.old }
    ensures put { bits room.new ≡ overlay (bits room.old) writer.old (bits octets.now) }
    ensures moved { writer.new ≡ writer.old + length (bits octets.now) }
{
    for octet in octets {
        writer.put::<8>(room, *octet as u64);
    }
}

impl<I: Input> Format<I> for Octets6 {
    type Ctx = ();

    type Value = [u8; 6];

    ghost meaning = { fixed_octets 6 };

    fn read<L: Ledger>(_ctx: (), cursor: &mut I, steps: &mut Steps<L>) -> Result<[u8; 6], Fault> {
        match cursor.take_bits(48, steps) {
            Ok(number) => {
                let [_, _, a, b, c, d, e, f] = number.to_be_bytes();
                Ok([a, b, c, d, e, f])
            }
            Err(_) => Err(Fault::unnamed()),
        }
    }

    fn size(_ctx: (), _value: &[u8; 6]) -> usize {
        48
    }

    #[inline(always)]
    fn write(_ctx: (), value: &[u8; 6], room: &mut [u8], writer: &mut Writer) {
        put_octets(value, room, writer);
    }

    ghost laws = { fixed_octets_laws 6 };
}

impl<I: Input> Wide<I> for Octets6 {
    ghost width_of = { 48 };

    fn width() -> u32 {
        48
    }

    ghost wide = { fixed_octets_is_wide 6 };
}

impl<I: Input> Format<I> for Octets4 {
    type Ctx = ();

    type Value = [u8; 4];

    ghost meaning = { fixed_octets 4 };

    fn read<L: Ledger>(_ctx: (), cursor: &mut I, steps: &mut Steps<L>) -> Result<[u8; 4], Fault> {
        match cursor.take_bits(32, steps) {
            Ok(number) => {
                let [_, _, _, _, a, b, c, d] = number.to_be_bytes();
                Ok([a, b, c, d])
            }
            Err(_) => Err(Fault::unnamed()),
        }
    }

    fn size(_ctx: (), _value: &[u8; 4]) -> usize {
        32
    }

    #[inline(always)]
    fn write(_ctx: (), value: &[u8; 4], room: &mut [u8], writer: &mut Writer) {
        put_octets(value, room, writer);
    }

    ghost laws = { fixed_octets_laws 4 };
}

impl<I: Input> Wide<I> for Octets4 {
    ghost width_of = { 32 };

    fn width() -> u32 {
        32
    }

    ghost wide = { fixed_octets_is_wide 4 };
}

impl Width for Octets6 {
    ghost width_of = { 48 };

    fn width() -> u32 {
        48
    }
}

impl Width for Octets4 {
    ghost width_of = { 32 };

    fn width() -> u32 {
        32
    }
}
