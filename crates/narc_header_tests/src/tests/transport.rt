//! Datagrams and segments read and written at their types.
ghost use Rattle.std.specs.Prelude.{◌≡◌, ◌+◌, ◌*◌, ◌≤◌, length};
ghost use Rattle.narc_packet.specs.PacketView.{udp_view};
ghost use Rattle.narc_transport.specs.Written.{FitsUdp, FitsTcp};

mod datagrams;
mod segments;

use narc_bits::{Cursor, Input, MAX_FRAME, Writer};
use narc_compose::Parted;
use narc_format::{Fault, Field, Tail, read_all};
use narc_packet::Udp;
use narc_sum::MAX_CHECKED;
use narc_transport::{
    Ends, TcpPart, TcpWithOffset, UdpPart, tcp_format_is_sound, udp_format_is_sound,
};

/// The addresses of each test.
const ENDS: Ends = Ends {
    src: [10, 0, 0, 1],
    dst: [10, 0, 0, 2],
};

/// The fault at this octet of the field with this number.
fn fault(field: u8, octet: u64) -> Fault
    requires { octet ≤ MAX_CHECKED }
{
    Fault {
        field: Field::of(field),
        at: 8 * octet,
    }
}

/// Writes a value by F, alone.
fn write<I: Input, F: Tail<I, Ctx = (Ends, usize)>>(value: &F::Value, room: &mut [u8])
    requires sound { F.meaning.sound }
    requires admitted { F.meaning.admits (ENDS, length room.old) value.now }
    requires small { length room.old ≤ MAX_FRAME }
    requires enough { length (F.meaning.spelling (ENDS, length room.old) value.now) ≤ 8 * length room.old }
{
    let mut writer = Writer::new();
    F::write((ENDS, room.len()), value, room, &mut writer);
}

/// The datagram that these octets are.
fn read_datagram(octets: &[u8]) -> Result<Udp<'_>, Fault>
    requires { length octets.now ≤ MAX_CHECKED }
{
    udp_format_is_sound();
    read_all::<Parted<UdpPart>>((ENDS, octets.len()), octets)
}

/// Writes a datagram, alone.
fn write_datagram(udp: &Udp<'_>, room: &mut [u8])
    requires fits { FitsUdp (length room.old) (udp_view udp.now) }
    requires small { length room.old ≤ MAX_CHECKED }
{
    write::<Cursor<'_>, Parted<UdpPart>>(udp, room)
}

/// The segment that these octets are.
fn read_segment(octets: &[u8]) -> Result<TcpWithOffset<'_>, Fault>
    requires { length octets.now ≤ MAX_CHECKED }
{
    tcp_format_is_sound();
    read_all::<Parted<TcpPart>>((ENDS, octets.len()), octets)
}

/// Writes a segment, alone.
fn write_segment(segment: &TcpWithOffset<'_>, room: &mut [u8])
    requires fits { FitsTcp (length room.old) segment.now }
    requires whole { 4 * segment.now.offset + length segment.now.tcp.payload.now ≡ length room.old }
{
    write::<Cursor<'_>, Parted<TcpPart>>(segment, room)
}
