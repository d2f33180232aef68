//! Octets that mean nothing.
ghost use Rattle.std.specs.Prelude.{◌≡◌, ◌+◌, ◌*◌, ◌%◌, ◌≤◌, length};
ghost use Rattle.narc_bits.specs.Bits.{bits, overlay};
ghost use Rattle.narc_list.specs.Pad.{padding};
ghost use Rattle.narc_list.specs.PadLaws.{padding_laws};

use narc_bits::{Cursor, MAX_FRAME, Steps, Writer};
use narc_format::{Fault, Tail};
use std::sync::ledger::Ledger;

/// Padding: any octets are read, and octets 0 are written, as many as the context says.
///
/// It reads `()` where the octets 7 and 8 are left, and also where none are; all are passed over.
/// It refuses nothing.
pub struct Pad;

impl<'a> Tail<Cursor<'a>> for Pad {
    /// How many octets are written.
    type Ctx = usize;

    type Value = ();

    ghost meaning = { padding };

    #[tactic(auto, unfolding(crate::specs::Pad::padding))]
    fn read<L: Ledger>(
        _ctx: usize,
        cursor: &mut Cursor<'a>,
        steps: &mut Steps<L>,
    ) -> Result<(), Fault> {
        let count = cursor.left() / 8;
        cursor.slice(count, steps);
        Ok(())
    }

    // A method that does not name the cursor's lifetime gets no clauses from the trait: they stand here.
    #[tactic(auto, unfolding(crate::specs::Pad::padding))]
    fn size(ctx: usize, _value: &()) -> usize
        requires small { length (padding.spelling ctx tt) ≤ 8 * MAX_FRAME }
        ensures { result ≡ length (padding.spelling ctx tt) }
    {
        8 * ctx
    }

    #[tactic(auto, unfolding(crate::specs::Pad::padding))]
    fn write(ctx: usize, _value: &(), room: &mut [u8], writer: &mut Writer)
        requires small { length room.old ≤ MAX_FRAME }
        requires enough { writer.old + length (padding.spelling ctx tt) ≤ 8 * length room.old }
        requires aligned { writer.old % 8 ≡ 0 }
        ensures len { length room.new ≡ length room.old }
        ensures put { bits room.new ≡ overlay (bits room.old) writer.old (padding.spelling ctx tt) }
        ensures moved { writer.new ≡ writer.old + length (padding.spelling ctx tt) }
    {
        writer.put_zeros(room, ctx);
    }

    ghost laws = { padding_laws };
}
