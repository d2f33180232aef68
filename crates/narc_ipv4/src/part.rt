//! The header and the fields before its checksum by their calls alone: what is built of them names no more.
ghost use Rattle.narc_ipv4.specs.Header.{ip_before, ip_head};
ghost use Rattle.narc_ipv4.specs.Laws.{ip_before_laws, ip_head_laws};

use crate::as_header::{IpHeader, RawBefore};
use crate::header::{Before, IpHead};
use narc_bits::{Cursor, Input, Steps, Writer};
use narc_compose::FormatPart;
use narc_format::{Fault, Format, Width};
use std::sync::ledger::Ledger;

/// `Before` by its calls.
pub struct BeforePart;

impl<I: Input> FormatPart<I> for BeforePart {
    type Ctx = usize;

    type Value = RawBefore;

    ghost meaning = { ip_before };

    fn read<L: Ledger>(
        ctx: usize,
        cursor: &mut I,
        steps: &mut Steps<L>,
    ) -> Result<RawBefore, Fault> {
        <Before as Format<I>>::read(ctx, cursor, steps)
    }

    fn size(ctx: usize, value: &RawBefore) -> usize {
        <Before as Format<I>>::size(ctx, value)
    }

    fn write(ctx: usize, value: &RawBefore, room: &mut [u8], writer: &mut Writer) {
        <Before as Format<I>>::write(ctx, value, room, writer)
    }

    ghost laws = { ip_before_laws };
}

impl Width for BeforePart {
    ghost width_of = { 80 };

    fn width() -> u32 {
        80
    }
}

/// `IpHead` by its calls.
pub struct IpHeadPart;

impl<'a> FormatPart<Cursor<'a>> for IpHeadPart {
    type Ctx = usize;

    type Value = IpHeader<'a>;

    ghost meaning = { ip_head };

    fn read<L: Ledger>(
        ctx: usize,
        cursor: &mut Cursor<'a>,
        steps: &mut Steps<L>,
    ) -> Result<IpHeader<'a>, Fault> {
        <IpHead as Format<Cursor<'a>>>::read(ctx, cursor, steps)
    }

    fn size(ctx: usize, value: &IpHeader<'a>) -> usize {
        <IpHead as Format<Cursor<'a>>>::size(ctx, value)
    }

    fn write(ctx: usize, value: &IpHeader<'a>, room: &mut [u8], writer: &mut Writer) {
        <IpHead as Format<Cursor<'a>>>::write(ctx, value, room, writer)
    }

    ghost laws = { ip_head_laws };
}
