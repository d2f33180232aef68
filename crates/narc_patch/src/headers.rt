//! Which headers a frame has.
ghost use Rattle.std.specs.Prelude.{◌≡◌, ◌≤◌, length};
ghost use Rattle.narc_bits.specs.Octets.{number_at};
ghost use Rattle.narc_packet.specs.Frame.{ipv4_type};
ghost use Rattle.narc_patch.specs.Patched.{headers_in, headers_of_ipv4};

use crate::change::word_at;

/// The headers of a frame of a packet, behind that of Ethernet. The header of UDP or TCP begins at an octet.
#[derive(Clone, Copy, Debug, Drop, PartialEq)]
pub(crate) enum Headers {
    Unread,
    Arp,
    Ipv4,
    Udp(usize),
    Tcp(usize),
}

impl Headers {
    /// The headers of an IPv4 packet, whose own begins the octets.
    fn of_ipv4(packet: &[u8]) -> Headers
        requires { 20 ≤ length packet.now }
        ensures { result ≡ headers_of_ipv4 packet.now }
    {
        let start = 14 + 4 * (packet[0] as usize % 16);
        let fragment = word_at(packet, 6);
        if fragment / 8192 % 2 == 1 || fragment % 8192 != 0 {
            return Headers::Ipv4;
        }
        match packet[9] {
            17 => Headers::Udp(start),
            6 => Headers::Tcp(start),
            _ => Headers::Ipv4,
        }
    }

    /// The headers of a frame.
    pub(crate) fn of(frame: &[u8]) -> Headers
        requires ethernet { 14 ≤ length frame.now }
        requires ipv4 { number_at frame.now 12 2 ≡ ipv4_type → 34 ≤ length frame.now }
        ensures { result ≡ headers_in frame.now }
    {
        match word_at(frame, 12) {
            0x0806 => Headers::Arp,
            0x0800 => Headers::of_ipv4(&frame[14..]),
            _ => Headers::Unread,
        }
    }
}
