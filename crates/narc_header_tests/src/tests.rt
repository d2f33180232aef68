//! Headers by their formats, written out, read, refused and written.
ghost use Rattle.std.specs.Prelude.{◌*◌, ◌≤◌, length};

mod eth;
mod ipv4;
mod options;
mod packets;
mod transport;

use narc_bits::{Input, MAX_FRAME, Writer};
use narc_format::Format;

/// How many bits the value has by F, which are then at the front of the room.
fn write<I: Input, F: Format<I>>(ctx: F::Ctx, value: &F::Value, room: &mut [u8]) -> usize
    requires sound { F.meaning.sound }
    requires admitted { F.meaning.admits ctx value.now }
    requires small { length room.old ≤ MAX_FRAME }
    requires enough { length (F.meaning.spelling ctx value.now) ≤ 8 * length room.old }
{
    let size = F::size(ctx, value);
    F::write(ctx, value, room, &mut Writer::new());
    size
}
