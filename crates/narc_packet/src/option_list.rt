//! Lists of options, by which packets are built.
ghost use Rattle.std.specs.Prelude.{◌≡◌, ◌↔◌, ◌+◌, ◌<◌, ◌≤◌, ◌++◌, ◌∷◌, [], length, IsOk, OnOk, OnErr, Err};
ghost use Rattle.narc_packet.specs.Options.{ip_option, tcp_option, IsIpOption, IsTcpOption, AreIpOptions, AreTcpOptions, ip_options_in, tcp_options_in, tcp_option_of};
ghost use Rattle.narc_packet.specs.WellFormed.{FitArea};
ghost use Rattle.narc_packet.specs.PacketView.{ip_option_view, tcp_option_view};

use crate::blocks::two_numbers;
use crate::limits::MAX_AREA;
use crate::option_type::TcpOptionType;
use crate::options::{IpOption, IpOptions, TcpOption, TcpOptions};
use arrayvec::ArrayVec;
use narc_bits::known_octets;
use std::marker::Model;
use thiserror::Error;

/// Why an option does not get into a list.
#[derive(Clone, Copy, Debug, Drop, PartialEq, Eq, Error)]
pub enum OptionError {
    /// Its kind is below 2, its data has more than 38 octets, it has a value of its own, or not one to four blocks.
    #[error("an option has no such kind and data")]
    NoSpelling,
    /// The options would have more than 40 octets.
    #[error("options have at most 40 octets")]
    NoRoom,
}

/// Appends the octets of an option.
fn push_octets(
    spelled: &mut ArrayVec<u8, MAX_AREA>,
    option: IpOption<'_>,
) -> Result<(), OptionError>
    ensures fits { IsOk result ↔ (IsIpOption (ip_option_view option.entry) × (length spelled.old.items + length (ip_option (ip_option_view option.entry)) ≤ MAX_AREA)) }
    ensures ok { OnOk result (spelled.new.items ≡ spelled.old.items ++ ip_option (ip_option_view option.entry)) }
    ensures unspelled { (result ≡ Err OptionError.NoSpelling) → IsIpOption (ip_option_view option.entry) → ⊥ }
    ensures full { (result ≡ Err OptionError.NoRoom) → IsIpOption (ip_option_view option.entry) }
    ensures err { OnErr result (spelled.new.items ≡ spelled.old.items) }
{
    match option {
        IpOption::Nop => spelled.try_push(1).map_err(|_| OptionError::NoRoom),
        IpOption::Other { kind, data } => {
            known_octets(data);
            if kind < 2 || data.len() > MAX_AREA - 2 {
                return Err(OptionError::NoSpelling);
            }
            if spelled.remaining_capacity() < 2 + data.len() {
                return Err(OptionError::NoRoom);
            }
            spelled.push(kind);
            spelled.push(2 + data.len() as u8);
            spelled.try_extend_from_slice(data).unwrap();
            Ok(())
        }
    }
}

/// The options of an IPv4 header, in octets of their own, seen as the list of options.
#[derive(Drop)]
pub struct IpOptionList {
    spelled: ArrayVec<u8, MAX_AREA>,
}

impl Model for IpOptionList {
    ghost use Rattle.std.specs.Prelude.{List, ◌≤◌, length};
    ghost use Rattle.narc_packet.specs.declared.limits.TheConstants.{MAX_AREA};
    ghost use Rattle.narc_packet.specs.Options.{IpOptionView, AreIpOptions, ip_options_in};

    ghost Value = { List IpOptionView };

    ghost view = { λ list. ip_options_in list.spelled.items };

    ghost invariant = { λ list. AreIpOptions list.spelled.items × (length list.spelled.items ≤ MAX_AREA) };
}

impl IpOptionList {
    /// No options.
    pub fn new() -> IpOptionList
        ensures { result ≡ [] }
    {
        IpOptionList {
            spelled: ArrayVec::new(),
        }
    }

    /// Appends an option, if it has a spelling and all the spellings then have at most 40 octets.
    pub fn push(&mut self, option: IpOption<'_>) -> Result<(), OptionError>
        ensures fits { IsOk result ↔ FitArea ip_option IsIpOption (self.old ++ ip_option_view option.entry ∷ []) }
        ensures ok { OnOk result (self.new ≡ self.old ++ ip_option_view option.entry ∷ []) }
        ensures unspelled { (result ≡ Err OptionError.NoSpelling) ↔ (IsIpOption (ip_option_view option.entry) → ⊥) }
        ensures err { OnErr result (self.new ≡ self.old) }
    {
        push_octets(&mut self.spelled, option)
    }

    /// The options, as a packet has them.
    pub fn as_options(&self) -> IpOptions<'_>
        ensures value { ip_options_in result.spelled.now ≡ self.now }
        ensures spelled { AreIpOptions result.spelled.now }
        ensures bound { length result.spelled.now ≤ MAX_AREA }
    {
        IpOptions {
            spelled: self.spelled.as_slice(),
        }
    }
}

/// The options of a TCP header, in octets of their own, seen as the list of options.
#[derive(Drop)]
pub struct TcpOptionList {
    /// The options of IPv4 that are spelled alike.
    alike: IpOptionList,
}

impl Model for TcpOptionList {
    ghost use Rattle.std.specs.Prelude.{List, map};
    ghost use Rattle.std.specs.List.{AllByRecursion};
    ghost use Rattle.narc_packet.specs.Options.{TcpOptionView, IsIpOption, tcp_option_of};

    ghost Value = { List TcpOptionView };

    ghost view = { λ list. map tcp_option_of list.alike };

    ghost invariant = { λ list. AllByRecursion IsIpOption list.alike };
}

impl TcpOptionList {
    /// No options.
    pub fn new() -> TcpOptionList
        ensures { result ≡ [] }
    {
        TcpOptionList {
            alike: IpOptionList::new(),
        }
    }

    /// Appends an option, if it has a spelling and all the spellings then have at most 40 octets.
    pub fn push(&mut self, option: TcpOption<'_>) -> Result<(), OptionError>
        ensures fits { IsOk result ↔ FitArea tcp_option IsTcpOption (self.old ++ tcp_option_view option.entry ∷ []) }
        ensures ok { OnOk result (self.new ≡ self.old ++ tcp_option_view option.entry ∷ []) }
        ensures unspelled { (result ≡ Err OptionError.NoSpelling) ↔ (IsTcpOption (tcp_option_view option.entry) → ⊥) }
        ensures err { OnErr result (self.new ≡ self.old) }
    {
        match option {
            TcpOption::Nop => self.push_alike(IpOption::Nop),
            TcpOption::Mss(size) => self.push_alike(IpOption::Other {
                kind: 2,
                data: &size.to_be_bytes(),
            }),
            TcpOption::Scale(shift) => self.push_alike(IpOption::Other {
                kind: 3,
                data: &[shift],
            }),
            TcpOption::SackOk => self.push_alike(IpOption::Other { kind: 4, data: &[] }),
            TcpOption::Sack(blocks) => {
                let data = blocks.option_data().ok_or(OptionError::NoSpelling)?;
                self.push_alike(IpOption::Other { kind: 5, data })
            }
            TcpOption::Times { value, echo } => self.push_alike(IpOption::Other {
                kind: 8,
                data: &two_numbers(value, echo),
            }),
            TcpOption::Other { kind, data } => {
                if TcpOptionType::of(kind, data.len()) != TcpOptionType::Untyped {
                    return Err(OptionError::NoSpelling);
                }
                self.push_alike(IpOption::Other { kind, data })
            }
        }
    }

    /// Appends the option of TCP that is spelled like this one of IPv4.
    fn push_alike(&mut self, option: IpOption<'_>) -> Result<(), OptionError>
        ensures fits { IsOk result ↔ FitArea tcp_option IsTcpOption (self.old ++ tcp_option_of (ip_option_view option.entry) ∷ []) }
        ensures ok { OnOk result (self.new ≡ self.old ++ tcp_option_of (ip_option_view option.entry) ∷ []) }
        ensures unspelled { (result ≡ Err OptionError.NoSpelling) ↔ (IsTcpOption (tcp_option_of (ip_option_view option.entry)) → ⊥) }
        ensures err { OnErr result (self.new ≡ self.old) }
    {
        if let IpOption::Other { data, .. } = option {
            known_octets(data);
        }
        self.alike.push(option)
    }

    /// The options, as a packet has them.
    pub fn as_options(&self) -> TcpOptions<'_>
        ensures value { tcp_options_in result.spelled.now ≡ self.now }
        ensures spelled { AreTcpOptions result.spelled.now }
        ensures bound { length result.spelled.now ≤ MAX_AREA }
    {
        TcpOptions {
            spelled: self.alike.as_options().spelled,
        }
    }
}
