//! Which options of TCP headers have a value of their own.
ghost use Rattle.std.specs.Prelude.{◌≡◌};
ghost use Rattle.narc_packet.specs.Options.{tcp_option_type};

/// What an option of a TCP header is, by its kind and how many octets of data it has.
#[derive(Clone, Copy, Drop, PartialEq, Eq)]
pub enum TcpOptionType {
    /// Kind 2 with two octets: the maximum segment size (RFC 793, section 3.1).
    SegmentSize,
    /// Kind 3 with one octet: the window scale (RFC 7323, section 2.2).
    WindowScale,
    /// Kind 4 without data: selective acknowledgment permitted (RFC 2018, section 2).
    SackPermitted,
    /// Kind 5 with one to four blocks of 8 octets: selective acknowledgment (RFC 2018, section 3).
    Sack,
    /// Kind 8 with eight octets: timestamps (RFC 7323, section 3.2).
    Timestamps,
    /// Any other kind, or another number of octets.
    Untyped,
}

impl TcpOptionType {
    /// What an option of this kind with so many octets of data is.
    pub fn of(kind: u8, count: usize) -> TcpOptionType
        ensures { result ≡ tcp_option_type kind count }
    {
        match (kind, count) {
            (2, 2) => TcpOptionType::SegmentSize,
            (3, 1) => TcpOptionType::WindowScale,
            (4, 0) => TcpOptionType::SackPermitted,
            (5, 8 | 16 | 24 | 32) => TcpOptionType::Sack,
            (8, 8) => TcpOptionType::Timestamps,
            _ => TcpOptionType::Untyped,
        }
    }
}
