//! The calls of a format or a tail that size and write, through their bounds.
ghost use Rattle.std.specs.Prelude.{◌≡◌, ◌*◌, ◌≤◌, length};

use narc_bits::{Input, MAX_FRAME, Writer};
use narc_format::{Format, Tail, Wide};

/// How many bits F says that it writes, and how many it writes at the beginning of the room.
pub fn write<I: Input, F: Format<I>>(
    ctx: F::Ctx,
    value: &F::Value,
    room: &mut [u8],
) -> (usize, usize)
    requires sound { F.meaning.sound }
    requires admitted { F.meaning.admits ctx value.now }
    requires small { length room.old ≤ MAX_FRAME }
    requires enough { length (F.meaning.spelling ctx value.now) ≤ 8 * length room.old }
{
    let mut writer = Writer::new();
    F::write(ctx, value, room, &mut writer);
    (F::size(ctx, value), writer.place())
}

/// How many bits the tail F says that it writes, and how many it writes at the beginning of the room.
pub fn write_all<I: Input, F: Tail<I>>(
    ctx: F::Ctx,
    value: &F::Value,
    room: &mut [u8],
) -> (usize, usize)
    requires sound { F.meaning.sound }
    requires admitted { F.meaning.admits ctx value.now }
    requires small { length room.old ≤ MAX_FRAME }
    requires enough { length (F.meaning.spelling ctx value.now) ≤ 8 * length room.old }
{
    let mut writer = Writer::new();
    F::write(ctx, value, room, &mut writer);
    (F::size(ctx, value), writer.place())
}

/// How many bits each spelling of F has.
pub fn width<I: Input, F: Wide<I>>() -> u32
    requires sound { F.meaning.sound }
    requires small { F.width_of ≤ 8 * MAX_FRAME }
{
    F::width()
}
