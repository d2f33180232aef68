//! The options of made packets, as the octets that spell them.
ghost use Rattle.std.specs.Prelude.{◌≡◌};
ghost use Rattle.narc_packet.specs.Options.{AreIpOptions, AreTcpOptions, ip_options_in, tcp_options_in};
ghost use Rattle.narc_trial.specs.Made.{ip_options, segment_size_octets, tcp_options};

use narc_packet::{IpOptions, TcpOptions};

/// How many octets a maximum segment size and no operation have.
pub(crate) const TCP_OPTIONS: usize = 5;

/// No operation.
const NOP: &[u8] = &[1];

/// An option of kind 148 with two octets 0.
const OTHER: &[u8] = &[148, 4, 0, 0];

/// The options of IPv4: none, no operation, or another one.
pub(crate) fn ip_options(number: u32) -> IpOptions<'static>
    ensures value { ip_options_in result.spelled.now ≡ ip_options number }
    ensures spelled { AreIpOptions result.spelled.now }
{
    match number % 3 {
        0 => IpOptions::none(),
        1 => IpOptions { spelled: NOP },
        _ => IpOptions { spelled: OTHER },
    }
}

/// The octets of a maximum segment size, and of no operation.
pub(crate) fn segment_size_octets(number: u32) -> [u8; TCP_OPTIONS]
    ensures { result ≡ segment_size_octets number }
{
    let [high, low] = ((number % 65_536) as u16).to_be_bytes();
    [2, 4, high, low, 1]
}

/// The options of TCP: a maximum segment size and no operation, or none.
pub(crate) fn tcp_options(number: u32, octets: &[u8]) -> TcpOptions<'_>
    requires { octets.now ≡ segment_size_octets number }
    ensures value { tcp_options_in result.spelled.now ≡ tcp_options number }
    ensures spelled { AreTcpOptions result.spelled.now }
{
    if number % 2 == 0 {
        TcpOptions { spelled: octets }
    } else {
        TcpOptions::none()
    }
}
