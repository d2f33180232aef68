//! The formats of the transport layer: UDP datagrams and TCP segments.
#![tactic(auto)]

mod as_tcp;
mod as_udp;
mod context;
mod laws;
mod parts;
mod pseudo;
mod tcp;
mod tcp_front;
mod udp;
mod udp_front;

pub use as_tcp::{AsTcp, TcpWithOffset};
pub use as_udp::AsUdp;
pub use context::Ends;
pub use laws::{
    tcp_format_admits_what_fits, tcp_format_is_its_octets, tcp_format_is_refused_by_row,
    tcp_format_is_sound, tcp_format_is_written_with_its_checksum, udp_format_admits_what_fits,
    udp_format_is_its_octets, udp_format_is_refused_by_row, udp_format_is_sound,
    udp_format_is_written_with_its_checksum,
};
pub use parts::{TcpPart, TcpPartTail, UdpPart, UdpPartTail};
pub use tcp::{AreaBehind, TcpFormat, TcpPseudo};
pub use tcp_front::{IsOffset, TcpFront};
pub use udp::{PayloadOf, Surplus, UdpFormat, UdpPseudo};
pub use udp_front::{IsUdpLength, UdpFront};
