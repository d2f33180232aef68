//! The rules for checksums at concrete types, behind a pseudo header of the octets 0 and 17.
#![tactic(auto, using(crate::proofs::Sums::checked_sound, crate::proofs::Sums::checked_or_none_sound, crate::proofs::Sums::checked_tail_sound, crate::proofs::Sums::any_tail_sound), unfolding(narc_sum::specs::Checked::checked, narc_sum::specs::Checked::checked_or_none, narc_sum::specs::Checked::checked_tail, narc_compose::specs::Gap::gapped, narc_compose::specs::Seq::seq_tail, narc_scalar::specs::Word::word, narc_list::specs::Bytes::all_octets, narc_bits::specs::Bits::bits_of_number, narc_bits::specs::Bits::bits, narc_bits::specs::InternetSum::total))]

ghost use Rattle.std.specs.Prelude.{◌<◌, ◌≤◌, ◌^◌, ◌∷◌, [], false, length};

use super::calls::{write, write_all};
use narc_bits::{Cursor, MAX_FRAME};
use narc_compose::{Gap, NoContext, SeqTail};
use narc_format::{Fault, Front, read_all, read_front};
use narc_list::Bytes;
use narc_scalar::Word;
use narc_sum::{Checked, CheckedOrNone, CheckedTail, Judge, Pseudo};

/// The octets 0 and 17.
struct Protocol;

impl Pseudo<()> for Protocol {
    ghost pseudo_of = { λ c n. 0 ∷ 17 ∷ [] };

    fn sum(_ctx: (), _octets: usize) -> u64 {
        17
    }
}

/// In no context.
struct Never;

impl Judge<()> for Never {
    ghost judges_of = { λ c. false };

    fn judges(_ctx: ()) -> bool {
        false
    }
}

type Port = Checked<Gap<Word<16>>, Protocol>;

type PortOrNone = CheckedOrNone<Gap<Word<16>>, Protocol>;

type Segment = CheckedTail<SeqTail<Gap<Word<16>>, Bytes, NoContext>, Protocol>;

type AnyPort = CheckedOrNone<Gap<Word<16>>, Protocol, Never>;

type AnySegment = CheckedTail<SeqTail<Gap<Word<16>>, Bytes, NoContext>, Protocol, Never>;

fn read_port(octets: &[u8]) -> Result<Front<u64>, Fault>
    requires { length octets.now ≤ MAX_FRAME }
{
    read_front::<Port>((), octets)
}

fn write_port(port: u64, room: &mut [u8]) -> (usize, usize)
    requires port { port < 2 ^ 16 }
    requires enough { 4 ≤ length room.old }
    requires small { length room.old ≤ MAX_FRAME }
{
    write::<Cursor<'static>, Port>((), &port, room)
}

fn read_port_or_none(octets: &[u8]) -> Result<Front<u64>, Fault>
    requires { length octets.now ≤ MAX_FRAME }
{
    read_front::<PortOrNone>((), octets)
}

fn write_port_or_none(port: u64, room: &mut [u8]) -> (usize, usize)
    requires port { port < 2 ^ 16 }
    requires enough { 4 ≤ length room.old }
    requires small { length room.old ≤ MAX_FRAME }
{
    write::<Cursor<'static>, PortOrNone>((), &port, room)
}

fn read_segment<'a>(octets: &'a [u8]) -> Result<(u64, &'a [u8]), Fault>
    requires { length octets.now ≤ MAX_FRAME }
{
    read_all::<Segment>((), octets)
}

fn read_any_port(octets: &[u8]) -> Result<Front<u64>, Fault>
    requires { length octets.now ≤ MAX_FRAME }
{
    read_front::<AnyPort>((), octets)
}

fn write_any_port(port: u64, room: &mut [u8]) -> (usize, usize)
    requires port { port < 2 ^ 16 }
    requires enough { 4 ≤ length room.old }
    requires small { length room.old ≤ MAX_FRAME }
{
    write::<Cursor<'static>, AnyPort>((), &port, room)
}

fn read_any_segment<'a>(octets: &'a [u8]) -> Result<(u64, &'a [u8]), Fault>
    requires { length octets.now ≤ MAX_FRAME }
{
    read_all::<AnySegment>((), octets)
}

#[test]
fn a_checksum_makes_the_sum_good(rt: HostRuntime) {
    let port = read_port(&[0, 1, 0xff, 0xed, 9]);
    assert!(rt; port == Ok(Front { value: 1, bits: 32 }));
    let wrong = Fault::unnamed().later_by(16);
    assert!(rt; read_port(&[0, 1, 0xff, 0xee]) == Err(wrong));
    let mut room = [0xaa; 5];
    assert!(rt; write_port(1, &mut room) == (32, 32));
    assert!(rt; room == [0, 1, 0xff, 0xed, 0xaa]);
}

#[test]
fn a_checksum_of_0_has_two_spellings(rt: HostRuntime) {
    let port = read_port(&[0xff, 0xee, 0, 0]);
    assert!(rt;
        port == Ok(Front {
            value: 0xffee,
            bits: 32
        })
    );
    assert!(rt; read_port(&[0xff, 0xee, 0xff, 0xff]) == port);
    let mut room = [0xaa; 4];
    assert!(rt; write_port(0xffee, &mut room) == (32, 32));
    assert!(rt; room == [0xff, 0xee, 0, 0]);
}

#[test]
fn an_absent_checksum_is_0_and_a_checksum_0_is_written_as_all_ones(rt: HostRuntime) {
    let port = read_port_or_none(&[0, 1, 0xff, 0xed]);
    assert!(rt; port == Ok(Front { value: 1, bits: 32 }));
    assert!(rt; read_port_or_none(&[0, 1, 0, 0]) == port);
    let wrong = Fault::unnamed().later_by(16);
    assert!(rt; read_port_or_none(&[0, 1, 0, 1]) == Err(wrong));
    let mut room = [0xaa; 4];
    assert!(rt; write_port_or_none(1, &mut room) == (32, 32));
    assert!(rt; room == [0, 1, 0xff, 0xed]);
    assert!(rt; write_port_or_none(0xffee, &mut room) == (32, 32));
    assert!(rt; room == [0xff, 0xee, 0xff, 0xff]);
}

#[test]
fn a_checked_tail_is_summed_to_its_end(rt: HostRuntime) {
    let segment = read_segment(&[0, 1, 0xfd, 0xed, 2]);
    assert!(rt; segment == Ok((1, [2].as_slice())));
    let wrong = Fault::unnamed().later_by(16);
    assert!(rt; read_segment(&[0, 1, 0xfd, 0xed, 3]) == Err(wrong));
    let mut room = [0xaa; 6];
    let value = (1, [2].as_slice());
    assert!(rt; write_all::<Cursor<'_>, Segment>((), &value, &mut room) == (40, 40));
    assert!(rt; room == [0, 1, 0xfd, 0xed, 2, 0xaa]);
}

#[test]
fn a_sum_that_is_not_judged_is_any(rt: HostRuntime) {
    let port = read_any_port(&[0, 1, 0, 1]);
    assert!(rt; port == Ok(Front { value: 1, bits: 32 }));
    assert!(rt; read_any_port(&[0, 1, 0xff, 0xed]) == port);
    let segment = read_any_segment(&[0, 1, 0xfd, 0xed, 3]);
    assert!(rt; segment == Ok((1, [3].as_slice())));
    let mut room = [0xaa; 4];
    assert!(rt; write_any_port(0xffee, &mut room) == (32, 32));
    assert!(rt; room == [0xff, 0xee, 0xff, 0xff]);
}
