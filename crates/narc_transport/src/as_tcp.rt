//! The segment that its fields are.
ghost use Rattle.std.specs.Prelude.{◌≡◌, ◌+◌, ◌*◌};
ghost use Rattle.narc_transport.specs.Tcp.{tcp_of, raw_tcp, SameTcp};

use crate::context::Ends;
use crate::tcp_front::RawTcpFront;
use narc_compose::Choose;
use narc_packet::{Tcp, TcpOptions};

type RawTcp<'a> = (RawTcpFront, ((u64, &'a [u8]), &'a [u8]));

/// A segment, and its offset in words of 32 bits. A region has as many octets as it was read in, so the offset stays.
#[derive(Drop)]
pub struct TcpWithOffset<'a> {
    pub offset: u8,
    pub tcp: Tcp<'a>,
}

/// The word of offset, reserved bits and flags.
fn bits_of(offset: u8, reserved: u8, flags: u8) -> u64
    ensures { result ≡ 4096 * offset + (64 * reserved + flags) }
{
    4096 * u64::from(offset) + (64 * u64::from(reserved) + u64::from(flags))
}

/// The fields of a segment as the segment.
pub struct AsTcp;

impl<'a> Choose<(Ends, usize), RawTcp<'a>> for AsTcp {
    type Value = TcpWithOffset<'a>;

    ghost strip_of = { tcp_of };

    ghost choose_of = { λ c t. raw_tcp t };

    ghost alike = { SameTcp };

    fn strip(raw: RawTcp<'a>) -> TcpWithOffset<'a> {
        let ((((sport, dport), (seq, ack)), (word, window)), behind) = raw;
        let ((urgent, spelled), payload) = behind;
        let tcp = Tcp {
            sport: (sport % 65536) as u16,
            dport: (dport % 65536) as u16,
            seq: (seq % 4294967296) as u32,
            ack: (ack % 4294967296) as u32,
            reserved: (word / 64 % 64) as u8,
            flags: (word % 64) as u8,
            window: (window % 65536) as u16,
            urgent: (urgent % 65536) as u16,
            options: TcpOptions { spelled },
            payload,
        };
        TcpWithOffset {
            offset: (word / 4096 % 16) as u8,
            tcp,
        }
    }

    fn choose(_ctx: (Ends, usize), segment: &TcpWithOffset<'a>) -> RawTcp<'a> {
        let tcp = &segment.tcp;
        let ports = (u64::from(tcp.sport), u64::from(tcp.dport));
        let places = (u64::from(tcp.seq), u64::from(tcp.ack));
        let bits = bits_of(segment.offset, tcp.reserved, tcp.flags);
        let words = (bits, u64::from(tcp.window));
        let urgent = (u64::from(tcp.urgent), tcp.options.spelled);
        (((ports, places), words), (urgent, tcp.payload))
    }
}
