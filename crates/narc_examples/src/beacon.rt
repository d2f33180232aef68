//! A lamp that tells its name, with a checksum.
ghost use Rattle.std.specs.Prelude.{◌≡◌, ◌*◌, ◌≤◌, length};
ghost use Rattle.narc_rules.specs.Bits.{bits, overlay};
ghost use Rattle.narc_rules.specs.Answer.{IsFrontAnswer};

use crate::lamp::{Lamp, State};
use narc_rules::{
    Checked, Cursor, Fault, Format, Front, Gap, MAX_FRAME, NoPseudo, NumberFirst, Seq, SizedBytes,
    Then, Word, Writer, read_front,
};

/// The lamp's state, a checksum over all octets, and the lamp's name.
pub type Beacon = Checked<Fields, NoPseudo>;

type Fields = Then<Gap<Lamp>, Name>;

/// How many octets the name has, in one octet, and the name.
type Name = Seq<Word<8>, SizedBytes, NumberFirst>;

/// The state, and the length of the name with the name.
pub type Told<'a> = (State, (u64, &'a [u8]));

/// What the lamp tells at the front of the octets, or why it tells nothing: the one answer.
pub fn read_beacon<'a>(octets: &'a [u8]) -> Result<Front<Told<'a>>, Fault>
    requires { length octets.now ≤ MAX_FRAME }
    ensures { IsFrontAnswer ⟦<Beacon as Format<Cursor<'static>>>⟧.meaning tt (bits octets.now) result }
{
    beacon_is_sound();
    read_front::<Beacon>((), octets)
}

/// Writes what the lamp tells at the front of the room, and answers how many bits it has.
pub fn write_beacon<'a>(told: &Told<'a>, room: &mut [u8]) -> usize
    requires admitted { ⟦<Beacon as Format<Cursor<'static>>>⟧.meaning.admits tt told.now }
    requires small { length room.old ≤ MAX_FRAME }
    requires enough { length (⟦<Beacon as Format<Cursor<'static>>>⟧.meaning.spelling tt told.now) ≤ 8 * length room.old }
    ensures bits { result ≡ length (⟦<Beacon as Format<Cursor<'static>>>⟧.meaning.spelling tt told.now) }
    ensures len { length room.new ≡ length room.old }
    ensures put { bits room.new ≡ overlay (bits room.old) 0 (⟦<Beacon as Format<Cursor<'static>>>⟧.meaning.spelling tt told.now) }
{
    beacon_is_sound();
    let mut writer = Writer::new();
    <Beacon as Format<Cursor<'a>>>::write((), told, room, &mut writer);
    writer.place()
}

/// The conditions of the rules hold.
pub fn beacon_is_sound()
    ensures { ⟦<Beacon as Format<Cursor<'static>>>⟧.meaning.sound }
{}
