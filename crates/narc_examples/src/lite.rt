//! A datagram whose checksum covers a part of it, after UDP-Lite (RFC 3828, section 3.1).
ghost use Rattle.std.specs.Prelude.{◌≡◌, ◌*◌, ◌-◌, ◌≤◌, length, nat_le};
ghost use Rattle.narc_rules.specs.Bits.{bits, overlay};
ghost use Rattle.narc_rules.specs.Answer.{IsAllAnswer};

use narc_rules::{
    Bytes, Carry, Checked, Cursor, Fault, Format, Gap, MAX_FRAME, NoContext, NoPseudo, Seq,
    SeqTail, SizedBytes, Tail, Test, Then, Where, Word, Writer, read_all,
};

//  |          source port          |       destination port        |
//  |       checksum coverage       |           checksum            |
//  | covered data, then data that is not covered                   |
pub type Lite = SeqTail<Summed, Bytes, NoContext>;

type Summed = Checked<Covered, NoPseudo>;

type Covered = Seq<Gap<Head>, SizedBytes, CoverageFirst>;

/// Two ports, and how many octets the checksum covers: this header, and the data that is covered.
type Head = Then<Word<16>, Then<Word<16>, Where<Word<16>, IsCoverage>>>;

/// Ports and coverage, the data that is covered, and the rest.
pub type Datagram<'a> = (((u64, (u64, u64)), &'a [u8]), &'a [u8]);

/// At least the header of 8 octets.
pub struct IsCoverage;

impl Test for IsCoverage {
    type Ctx = ();

    type Value = u64;

    ghost holds = { λ c value. nat_le 8 value };

    fn holds(_ctx: (), value: &u64) -> bool {
        8 <= *value
    }
}

/// The data has the octets of the coverage but for those of the header.
pub struct CoverageFirst;

impl Carry<(u64, (u64, u64)), (), usize> for CoverageFirst {
    type Ctx = ();

    ghost first_of = { λ c. c };

    ghost second_of = { λ c head. head.1.1 - 8 };

    ghost valid = { λ c. Unit {0} };

    fn first(_ctx: ()) {}

    fn second(_ctx: (), head: &(u64, (u64, u64))) -> usize {
        head.1.1.saturating_sub(8) as usize
    }
}

/// The datagram that the octets are, or why they are none: the one answer.
pub fn read_lite<'a>(octets: &'a [u8]) -> Result<Datagram<'a>, Fault>
    requires { length octets.now ≤ MAX_FRAME }
    ensures { IsAllAnswer ⟦<Lite as Tail<Cursor<'static>>>⟧.meaning tt (bits octets.now) result }
{
    lite_is_sound();
    read_all::<Lite>((), octets)
}

/// Writes the datagram at the front of the room, and answers how many bits it has.
pub fn write_lite<'a>(datagram: &Datagram<'a>, room: &mut [u8]) -> usize
    requires admitted { ⟦<Lite as Tail<Cursor<'static>>>⟧.meaning.admits tt datagram.now }
    requires small { length room.old ≤ MAX_FRAME }
    requires enough { length (⟦<Lite as Tail<Cursor<'static>>>⟧.meaning.spelling tt datagram.now) ≤ 8 * length room.old }
    ensures bits { result ≡ length (⟦<Lite as Tail<Cursor<'static>>>⟧.meaning.spelling tt datagram.now) }
    ensures len { length room.new ≡ length room.old }
    ensures put { bits room.new ≡ overlay (bits room.old) 0 (⟦<Lite as Tail<Cursor<'static>>>⟧.meaning.spelling tt datagram.now) }
{
    lite_is_sound();
    let mut writer = Writer::new();
    <Lite as Tail<Cursor<'a>>>::write((), datagram, room, &mut writer);
    writer.place()
}

/// The conditions of the rules hold.
pub fn lite_is_sound()
    ensures { ⟦<Lite as Tail<Cursor<'static>>>⟧.meaning.sound }
{}
