//! Options of TCP of each kind and length, written and read, and the edges of their numbers.
ghost use Rattle.std.specs.Prelude.{◌≤◌, length};

use super::{connection_request, decode, encode, ipv4_of, packet_of};
use narc_bits::MAX_FRAME;
use narc_packet::{
    EthBody, IpBody, Ipv4, Packet, SackBlock, SackBlockList, SackBlocks, TcpOption, TcpOptionList,
    TcpOptions,
};

/// An option has as many of these octets as data as it has, the first first.
const DATA: [u8; 38] = [
    1, 2, 3, 4, 5, 6, 7, 8, 9, 10, 11, 12, 13, 14, 15, 16, 17, 18, 19, 20, 21, 22, 23, 24, 25, 26,
    27, 28, 29, 30, 31, 32, 33, 34, 35, 36, 37, 38,
];

/// The blocks that these octets are.
const BLOCKS: [SackBlock; 4] = [
    SackBlock {
        left: 0x0102_0304,
        right: 0x0506_0708,
    },
    SackBlock {
        left: 0x090a_0b0c,
        right: 0x0d0e_0f10,
    },
    SackBlock {
        left: 0x1112_1314,
        right: 0x1516_1718,
    },
    SackBlock {
        left: 0x191a_1b1c,
        right: 0x1d1e_1f20,
    },
];

/// The octets of the option of this kind with so many octets of data, and octets 0 behind them.
fn octets_of(kind: u8, count: usize) -> [u8; 40]
    requires { count ≤ 38 }
{
    let mut octets = [0; 40];
    octets[0] = kind;
    octets[1] = 2 + count as u8;
    octets[2..2 + count].copy_from_slice(&DATA[..count]);
    octets
}

/// Whether these are the first blocks, so many.
fn are_blocks(blocks: SackBlocks<'_>, count: usize) -> bool {
    let mut left = blocks.iter();
    for block in BLOCKS.iter().take(count) {
        if left.next() != Some(*block) {
            return false;
        }
    }
    left.next().is_none()
}

/// Whether the option of this kind with so many octets of data is this one.
fn is_option(kind: u8, count: usize, option: TcpOption<'_>) -> bool
    requires { count ≤ 38 }
{
    match (kind, count, option) {
        (2, 2, TcpOption::Mss(size)) => size == 0x0102,
        (3, 1, TcpOption::Scale(shift)) => shift == 1,
        (4, 0, TcpOption::SackOk) => true,
        (5, 8 | 16 | 24 | 32, TcpOption::Sack(blocks)) => are_blocks(blocks, count / 8),
        (8, 8, TcpOption::Times { value, echo }) => value == 0x0102_0304 && echo == 0x0506_0708,
        (2, 2, _) | (3, 1, _) | (4, 0, _) | (5, 8 | 16 | 24 | 32, _) | (8, 8, _) => false,
        (_, _, TcpOption::Other { kind: told, data }) => told == kind && data == &DATA[..count],
        _ => false,
    }
}

/// Whether the list that is built of the option alone has these octets.
fn is_spelled(option: TcpOption<'_>, octets: &[u8]) -> bool {
    let mut list = TcpOptionList::new();
    list.push(option).is_ok() && list.as_options().spelled == octets
}

/// The options of the segment in the frame.
fn options_of(frame: &[u8]) -> Option<TcpOptions<'_>>
    requires { length frame.now ≤ MAX_FRAME }
{
    match decode(frame) {
        Ok(
            Packet {
                body: EthBody::Ip(
                    Ipv4 {
                        body: IpBody::Tcp(tcp),
                        ..
                    },
                ),
                ..
            },
        ) => Some(tcp.options),
        _ => None,
    }
}

/// Whether a segment with this option alone is written with the option's octets, and read as the option, which is built again
/// of the same octets.
fn is_written_and_read(kind: u8, count: usize) -> bool
    requires { count ≤ 38 }
{
    let octets = octets_of(kind, count);
    let spelled = &octets[..2 + count];
    let mut room = [0xaa; 94];
    let packet = packet_of(EthBody::Ip(ipv4_of(&[], connection_request(spelled))));
    let Some(size) = encode(&packet, &mut room) else {
        return false;
    };
    let Some(options) = options_of(&room[..size]) else {
        return false;
    };
    let mut options = options.iter();
    let Some(option) = options.next() else {
        return false;
    };
    &room[54..56 + count] == spelled
        && is_option(kind, count, option)
        && is_spelled(option, spelled)
        && options.next().is_none()
}

#[test]
fn an_option_of_each_kind_and_length_is_written_and_read(rt: HostRuntime) {
    for kind in 2..=u8::MAX {
        for count in 0..=38 {
            assert!(rt; is_written_and_read(kind, count));
        }
    }
}

#[test]
fn clocks_have_32_bits(rt: HostRuntime) {
    let first = TcpOption::Times {
        value: 0,
        echo: u32::MAX,
    };
    assert!(rt; is_spelled(first, &[8, 10, 0, 0, 0, 0, 255, 255, 255, 255]));
    let second = TcpOption::Times {
        value: u32::MAX,
        echo: 0,
    };
    assert!(rt; is_spelled(second, &[8, 10, 255, 255, 255, 255, 0, 0, 0, 0]));
}

#[test]
fn edges_of_blocks_have_32_bits_and_any_order(rt: HostRuntime) {
    let mut blocks = SackBlockList::new();
    blocks.push(SackBlock {
        left: u32::MAX,
        right: 0,
    });
    let octets = [5, 10, 255, 255, 255, 255, 0, 0, 0, 0];
    assert!(rt; is_spelled(TcpOption::Sack(blocks.as_blocks()), &octets));
}
