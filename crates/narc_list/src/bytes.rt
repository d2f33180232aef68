//! All octets that are left.
ghost use Rattle.narc_list.specs.Bytes.{all_octets};
ghost use Rattle.narc_list.specs.BytesLaws.{all_octets_laws};

use narc_bits::{Cursor, Steps, Writer};
use narc_format::{Fault, Tail};
use std::sync::ledger::Ledger;

/// All octets that are left, not copied.
///
/// It reads `[7, 8]` where the octets 7 and 8 are left, and an empty slice where none are.
/// It refuses nothing.
pub struct Bytes;

impl<'a> Tail<Cursor<'a>> for Bytes {
    type Ctx = ();

    type Value = &'a [u8];

    ghost meaning = { all_octets };

    #[tactic(auto, unfolding(crate::specs::Bytes::all_octets))]
    fn read<L: Ledger>(
        _ctx: (),
        cursor: &mut Cursor<'a>,
        steps: &mut Steps<L>,
    ) -> Result<&'a [u8], Fault> {
        let count = cursor.left() / 8;
        Ok(cursor.slice(count, steps))
    }

    #[tactic(auto, unfolding(crate::specs::Bytes::all_octets))]
    fn size(_ctx: (), value: &&'a [u8]) -> usize {
        8 * value.len()
    }

    #[tactic(auto, unfolding(crate::specs::Bytes::all_octets))]
    fn write(_ctx: (), value: &&'a [u8], room: &mut [u8], writer: &mut Writer) {
        writer.put_slice(room, value);
    }

    ghost laws = { all_octets_laws };
}
