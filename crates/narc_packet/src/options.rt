//! The options of IPv4 and TCP headers, as the octets that spell them.
ghost use Rattle.std.specs.Prelude.{◌≡◌, ◌↔◌, ◌<◌, ◌≤◌, ◌++◌, ◌∷◌, [], IsTrue, IsNone, IfSome, length, map, flat_map};
ghost use Rattle.narc_packet.specs.Options.{ip_option, ip_options_in, tcp_options_in, tcp_option_of};
ghost use Rattle.narc_packet.specs.PacketView.{ip_option_view, tcp_option_view};

use crate::blocks::SackBlocks;
use crate::limits::MAX_AREA;
use crate::option_type::TcpOptionType;
use arrayvec::ArrayVec;
use narc_bits::known_octets;
use std::marker::Model;

/// An option of an IPv4 header (RFC 791, section 3.1): no operation, or any other with its data.
#[derive(Clone, Copy, Default, Drop)]
pub enum IpOption<'a> {
    #[default]
    Nop,
    /// A kind from 2 on, and 0 to 38 octets of data.
    Other { kind: u8, data: &'a [u8] },
}

/// An option of a TCP header (RFC 793, section 3.1): no operation, one of those that have a value of their own, or any
/// other with its data.
#[derive(Clone, Copy, Default, Drop)]
pub enum TcpOption<'a> {
    #[default]
    Nop,
    /// The maximum segment size: kind 2 with two octets of data.
    Mss(u16),
    /// By how many bits the window is shifted (RFC 7323, section 2.2): kind 3 with one octet.
    Scale(u8),
    /// Selective acknowledgment is permitted (RFC 2018, section 2): kind 4 without data.
    SackOk,
    /// Selective acknowledgment (RFC 2018, section 3): kind 5 with one to four blocks.
    Sack(SackBlocks<'a>),
    /// The sender's clock, and the clock that is echoed (RFC 7323, section 3.2): kind 8 with two numbers of four octets.
    Times { value: u32, echo: u32 },
    /// A kind from 2 on, and 0 to 38 octets of data, which together are none of the above.
    Other { kind: u8, data: &'a [u8] },
}

impl<'a> TcpOption<'a> {
    /// The option of TCP that is spelled like this option of IPv4.
    fn spelled_like(option: IpOption<'a>) -> TcpOption<'a>
        ensures { tcp_option_view result ≡ tcp_option_of (ip_option_view option.entry) }
    {
        let IpOption::Other { kind, data } = option else {
            return TcpOption::Nop;
        };
        match (TcpOptionType::of(kind, data.len()), data) {
            (TcpOptionType::SegmentSize, [high, low]) => {
                TcpOption::Mss(u16::from_be_bytes([*high, *low]))
            }
            (TcpOptionType::WindowScale, [shift]) => TcpOption::Scale(*shift),
            (TcpOptionType::SackPermitted, _) => TcpOption::SackOk,
            (TcpOptionType::Sack, spelled) => TcpOption::Sack(SackBlocks { spelled }),
            (TcpOptionType::Timestamps, [a, b, c, d, e, f, g, h]) => TcpOption::Times {
                value: u32::from_be_bytes([*a, *b, *c, *d]),
                echo: u32::from_be_bytes([*e, *f, *g, *h]),
            },
            _ => TcpOption::Other { kind, data },
        }
    }
}

/// The option in front and the octets behind it; none where the octets end, an octet 0 ends the list, or there is no
/// length or one below 2 or past the octets.
fn split_first_option(spelled: &[u8]) -> Option<(IpOption<'_>, &[u8])>
    ensures none { IsNone result ↔ (ip_options_in spelled.now ≡ []) }
    ensures first { IfSome result (λ pair. ip_options_in spelled.now ≡ ip_option_view pair.0 ∷ ip_options_in pair.1.now) }
    ensures shorter { IfSome result (λ pair. length pair.1.now < length spelled.now) }
    ensures cut { IfSome result (λ pair. spelled.now ≡ ip_option (ip_option_view pair.0) ++ pair.1.now) }
{
    let (kind, rest) = spelled.split_first()?;
    match *kind {
        0 => None,
        1 => Some((IpOption::Nop, rest)),
        kind => {
            let (len, rest) = rest.split_first()?;
            let count = usize::from(*len).checked_sub(2)?;
            let (data, rest) = rest.split_at_checked(count)?;
            Some((IpOption::Other { kind, data }, rest))
        }
    }
}

/// Whether the octets spell options one behind the other, and nothing else.
pub(crate) fn are_options(octets: &[u8]) -> bool
    ensures { IsTrue result ↔ (flat_map ip_option (ip_options_in octets.now) ≡ octets.now) }
{
    let mut left = octets;
    while let Some((_, behind)) = split_first_option(left) {
        left = behind;
    }
    left.is_empty()
}

/// Whether two options are the same, wherever their data lies.
fn is_same_option(a: IpOption<'_>, b: IpOption<'_>) -> bool
    ensures { IsTrue result ↔ (ip_option_view a.entry ≡ ip_option_view b.entry) }
{
    match (a, b) {
        (IpOption::Nop, IpOption::Nop) => true,
        (
            IpOption::Other { kind, data },
            IpOption::Other {
                kind: other_kind,
                data: other_data,
            },
        ) => { kind == other_kind && data == other_data }
        _ => false,
    }
}

/// Whether the octets spell the same options in the same order.
fn spell_same_options(a: &[u8], b: &[u8]) -> bool
    ensures { IsTrue result ↔ (ip_options_in a.now ≡ ip_options_in b.now) }
{
    let mut left = a;
    let mut right = b;
    while let Some((option, behind)) = split_first_option(left) {
        let Some((other, other_behind)) = split_first_option(right) else {
            return false;
        };
        if !is_same_option(option, other) {
            return false;
        }
        left = behind;
        right = other_behind;
    }
    split_first_option(right).is_none()
}

/// The options of an IPv4 header, one behind the other.
#[derive(Clone, Copy, Drop)]
pub struct IpOptions<'a> {
    /// The octets that spell the options, without an end of the list: at most 40 in a packet.
    pub spelled: &'a [u8],
}

impl<'a> IpOptions<'a> {
    /// No options.
    pub fn none() -> IpOptions<'a>
        ensures { result.spelled.now ≡ [] }
    {
        IpOptions { spelled: &[] }
    }

    pub fn is_empty(&self) -> bool
        ensures { IsTrue result ↔ (ip_options_in self.now.spelled.now ≡ []) }
    {
        split_first_option(self.spelled).is_none()
    }

    /// Whether both are the same list of options, whatever stands behind them in their octets.
    pub fn is_same_list(&self, other: &IpOptions<'_>) -> bool
        ensures { IsTrue result ↔ (ip_options_in self.now.spelled.now ≡ ip_options_in other.now.spelled.now) }
    {
        spell_same_options(self.spelled, other.spelled)
    }

    /// The options in order.
    pub fn iter(&self) -> IpOptionIter<'a>
        ensures { result ≡ ip_options_in self.now.spelled.now }
    {
        IpOptionIter { left: self.spelled }
    }

    /// The options in order, of at most 40 octets.
    pub fn to_list(&self) -> ArrayVec<IpOption<'a>, MAX_AREA>
        requires { length self.now.spelled.now ≤ MAX_AREA }
        ensures { map ip_option_view result.items ≡ ip_options_in self.now.spelled.now }
    {
        let mut list = ArrayVec::new();
        for option in self.iter() {
            list.push(option);
        }
        list
    }
}

/// The options of a TCP header, one behind the other.
#[derive(Clone, Copy, Drop)]
pub struct TcpOptions<'a> {
    /// The octets that spell the options, without an end of the list: at most 40 in a packet.
    pub spelled: &'a [u8],
}

impl<'a> TcpOptions<'a> {
    /// No options.
    pub fn none() -> TcpOptions<'a>
        ensures { result.spelled.now ≡ [] }
    {
        TcpOptions { spelled: &[] }
    }

    pub fn is_empty(&self) -> bool
        ensures { IsTrue result ↔ (tcp_options_in self.now.spelled.now ≡ []) }
    {
        split_first_option(self.spelled).is_none()
    }

    /// Whether both are the same list of options, whatever stands behind them in their octets.
    pub fn is_same_list(&self, other: &TcpOptions<'_>) -> bool
        ensures { IsTrue result ↔ (tcp_options_in self.now.spelled.now ≡ tcp_options_in other.now.spelled.now) }
    {
        known_octets(self.spelled);
        known_octets(other.spelled);
        spell_same_options(self.spelled, other.spelled)
    }

    /// The options in order.
    pub fn iter(&self) -> TcpOptionIter<'a>
        ensures { result ≡ tcp_options_in self.now.spelled.now }
    {
        TcpOptionIter { left: self.spelled }
    }

    /// The options in order, of at most 40 octets.
    pub fn to_list(&self) -> ArrayVec<TcpOption<'a>, MAX_AREA>
        requires { length self.now.spelled.now ≤ MAX_AREA }
        ensures { map tcp_option_view result.items ≡ tcp_options_in self.now.spelled.now }
    {
        let mut list = ArrayVec::new();
        for option in self.iter() {
            list.push(option);
        }
        list
    }
}

/// The options of an IPv4 header, seen as the list of those that are left.
#[derive(Drop)]
pub struct IpOptionIter<'a> {
    left: &'a [u8],
}

impl<'a> Model for IpOptionIter<'a> {
    ghost use Rattle.std.specs.Prelude.{List};
    ghost use Rattle.narc_packet.specs.Options.{IpOptionView, ip_options_in};

    ghost Value = { List IpOptionView };

    ghost view = { λ options. ip_options_in options.left.now };
}

impl<'a> Iterator for IpOptionIter<'a> {
    ghost use Rattle.std.specs.Iterator.{YieldsFirstBy, item_count};

    type Item = IpOption<'a>;

    ghost next_gives = { YieldsFirstBy ip_option_view (λ left. left) };

    ghost remaining = { item_count (λ left. left) };

    #[inline(always)]
    fn next(&mut self) -> Option<IpOption<'a>> {
        let (option, left) = split_first_option(self.left)?;
        self.left = left;
        Some(option)
    }
}

/// The options of a TCP header, seen as the list of those that are left.
#[derive(Drop)]
pub struct TcpOptionIter<'a> {
    left: &'a [u8],
}

impl<'a> Model for TcpOptionIter<'a> {
    ghost use Rattle.std.specs.Prelude.{List};
    ghost use Rattle.narc_packet.specs.Options.{TcpOptionView, tcp_options_in};

    ghost Value = { List TcpOptionView };

    ghost view = { λ options. tcp_options_in options.left.now };
}

impl<'a> Iterator for TcpOptionIter<'a> {
    ghost use Rattle.std.specs.Iterator.{YieldsFirstBy, item_count};

    type Item = TcpOption<'a>;

    ghost next_gives = { YieldsFirstBy tcp_option_view (λ left. left) };

    ghost remaining = { item_count (λ left. left) };

    #[inline(always)]
    fn next(&mut self) -> Option<TcpOption<'a>> {
        let (option, left) = split_first_option(self.left)?;
        self.left = left;
        Some(TcpOption::spelled_like(option))
    }
}
