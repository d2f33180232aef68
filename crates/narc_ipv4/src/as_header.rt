//! The header that its fields are.
ghost use Rattle.std.specs.Prelude.{◌≡◌};
ghost use Rattle.narc_ipv4.specs.Header.{header_of, raw_header, fragment_word_of, SameHeader};

use narc_compose::Choose;
use narc_packet::IpOptions;

/// The fields of an IPv4 header. The addresses stand first, so that both are moved as one word.
#[derive(Drop)]
pub struct IpHeader<'a> {
    pub src: [u8; 4],
    pub dst: [u8; 4],
    /// How many octets the header has: 20 to 60, a multiple of 4.
    pub length: u8,
    pub tos: u8,
    /// How many octets the packet has.
    pub total: u16,
    pub id: u16,
    /// Do not fragment.
    pub df: bool,
    /// More fragments follow.
    pub mf: bool,
    /// The place of this fragment, in units of 8 octets.
    pub offset: u16,
    pub ttl: u8,
    pub protocol: u8,
    pub options: IpOptions<'a>,
}

/// The values of the fields before the checksum.
pub type RawBefore = (((u64, u64), u64), ((u64, u64), (u64, u64)));

/// The values of the fields.
pub type RawHeader<'a> = (RawBefore, (([u8; 4], [u8; 4]), &'a [u8]));

/// The word of the two flags and the offset.
fn fragment_of(df: bool, mf: bool, offset: u16) -> u64
    ensures { result ≡ fragment_word_of df mf offset }
{
    let df: u64 = if df { 16384 } else { 0 };
    let mf: u64 = if mf { 8192 } else { 0 };
    df + mf + u64::from(offset)
}

/// The fields of a header as the header.
pub struct AsHeader;

impl<'a> Choose<usize, RawHeader<'a>> for AsHeader {
    type Value = IpHeader<'a>;

    ghost strip_of = { header_of };

    ghost choose_of = { λ c h. raw_header h };

    ghost alike = { SameHeader };

    fn strip(raw: RawHeader<'a>) -> IpHeader<'a> {
        let ((lengths, behind), ((src, dst), spelled)) = raw;
        let ((first, tos), total) = lengths;
        let ((id, fragment), (ttl, protocol)) = behind;
        IpHeader {
            length: (4 * (first % 16)) as u8,
            tos: (tos % 256) as u8,
            total: (total % 65536) as u16,
            id: (id % 65536) as u16,
            df: fragment / 16384 % 2 == 1,
            mf: fragment / 8192 % 2 == 1,
            offset: (fragment % 8192) as u16,
            ttl: (ttl % 256) as u8,
            protocol: (protocol % 256) as u8,
            src,
            dst,
            options: IpOptions { spelled },
        }
    }

    fn choose(_ctx: usize, header: &IpHeader<'a>) -> RawHeader<'a> {
        let front = (64 + u64::from(header.length / 4), u64::from(header.tos));
        let lengths = (front, u64::from(header.total));
        let fragment = fragment_of(header.df, header.mf, header.offset);
        let behind = (
            (u64::from(header.id), fragment),
            (u64::from(header.ttl), u64::from(header.protocol)),
        );
        let addresses = (header.src, header.dst);
        ((lengths, behind), (addresses, header.options.spelled))
    }
}
