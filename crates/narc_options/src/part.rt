//! The area by its calls alone: a header's type names no more of it.
ghost use Rattle.narc_options.specs.Option.{option_area};
ghost use Rattle.narc_options.specs.Laws.{option_area_laws};

use crate::area::OptionArea;
use narc_bits::{Cursor, Steps, Writer};
use narc_compose::Part;
use narc_format::{Fault, Tail};
use std::sync::ledger::Ledger;

/// `OptionArea` by its calls.
pub struct OptionAreaPart;

impl<'a> Part<Cursor<'a>> for OptionAreaPart {
    type Ctx = usize;

    type Value = &'a [u8];

    ghost meaning = { option_area };

    #[inline(always)]
    fn read<L: Ledger>(
        ctx: usize,
        cursor: &mut Cursor<'a>,
        steps: &mut Steps<L>,
    ) -> Result<&'a [u8], Fault> {
        <OptionArea<'a> as Tail<Cursor<'a>>>::read(ctx, cursor, steps)
    }

    fn size(ctx: usize, value: &&'a [u8]) -> usize {
        <OptionArea<'a> as Tail<Cursor<'a>>>::size(ctx, value)
    }

    fn write(ctx: usize, value: &&'a [u8], room: &mut [u8], writer: &mut Writer) {
        <OptionArea<'a> as Tail<Cursor<'a>>>::write(ctx, value, room, writer)
    }

    ghost laws = { option_area_laws };
}
