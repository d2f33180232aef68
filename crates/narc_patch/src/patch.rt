//! Frames that are edited in place.
ghost use Rattle.std.specs.Prelude.{◌≡◌, ◌+◌, ◌<◌, ◌≤◌, ◌^◌, List, ℕ, [], ◌∷◌, fold, length};
ghost use Rattle.std.specs.List.{AllByRecursion};
ghost use Rattle.narc_packet.specs.PacketView.{PacketView};
ghost use Rattle.narc_packet.specs.Frame.{IsFrame};
ghost use Rattle.narc_patch.specs.Change.{changed};
ghost use Rattle.narc_edit.specs.Edited.{edited};
ghost use Rattle.narc_patch.specs.Patched.{arp_changes, eth_changes, header_changes, ipv4_changes, patched, tcp_changes, tcp_sums, udp_changes, udp_sums};
ghost use Rattle.narc_patch.specs.Room.{HasRoom};

use crate::change::Checksum;
use crate::fields::{
    assign_address, assign_df, assign_flags, assign_ip, assign_long, assign_mac, assign_octet,
    assign_reserved, assign_short,
};
use crate::headers::Headers;
use narc_edit::Edits;
use narc_mend::Zero;

/// The checksum of the IPv4 header.
const HEADER_SUM: Checksum = Checksum {
    at: 24,
    zero: Zero::Plain,
};

/// The checksum of a UDP datagram, whose header begins at an octet.
fn udp_sum(start: usize) -> Checksum
    requires { start < 2 ^ 63 }
    ensures { result ∷ [] ≡ udp_sums start }
{
    Checksum {
        at: start + 6,
        zero: Zero::Udp,
    }
}

/// The checksum of a TCP segment, whose header begins at an octet.
fn tcp_sum(start: usize) -> Checksum
    requires { start < 2 ^ 63 }
    ensures { result ∷ [] ≡ tcp_sums start }
{
    Checksum {
        at: start + 16,
        zero: Zero::Plain,
    }
}

fn patch_eth(edits: &Edits, frame: &mut [u8])
    requires { 14 ≤ length frame.old }
    ensures { frame.new ≡ fold changed frame.old (eth_changes edits.now) }
{
    assign_mac(frame, 0, edits.eth_dst);
    assign_mac(frame, 6, edits.eth_src);
}

fn patch_arp(edits: &Edits, frame: &mut [u8])
    requires { 42 ≤ length frame.old }
    ensures { frame.new ≡ fold changed frame.old (arp_changes edits.now) }
{
    assign_short(frame, 20, edits.arp_op, &[]);
    assign_mac(frame, 22, edits.arp_sha);
    assign_ip(frame, 28, edits.arp_spa);
    assign_mac(frame, 32, edits.arp_tha);
    assign_ip(frame, 38, edits.arp_tpa);
}

/// The header of IPv4, with all checksums that are over its addresses.
fn patch_ipv4(edits: &Edits, frame: &mut [u8], over_addresses: &[Checksum])
    requires header { 34 ≤ length frame.old }
    requires sums { AllByRecursion (λ sum. sum.at + 2 ≤ length frame.old) over_addresses.now }
    ensures { frame.new ≡ fold changed frame.old (ipv4_changes edits.now over_addresses.now) }
{
    let header = &[HEADER_SUM];
    assign_octet(frame, 15, edits.ip_tos, header);
    assign_short(frame, 18, edits.ip_id, header);
    assign_df(frame, edits.ip_df, header);
    assign_octet(frame, 22, edits.ip_ttl, header);
    assign_address(frame, 26, edits.ip_src, over_addresses);
    assign_address(frame, 30, edits.ip_dst, over_addresses);
}

fn patch_udp(edits: &Edits, frame: &mut [u8], start: usize, sums: &[Checksum])
    requires header { start + 8 ≤ length frame.old }
    requires sums { AllByRecursion (λ sum. sum.at + 2 ≤ length frame.old) sums.now }
    ensures { frame.new ≡ fold changed frame.old (udp_changes edits.now start sums.now) }
{
    assign_short(frame, start, edits.udp_sport, sums);
    assign_short(frame, start + 2, edits.udp_dport, sums);
}

fn patch_tcp(edits: &Edits, frame: &mut [u8], start: usize, sums: &[Checksum])
    requires header { start + 20 ≤ length frame.old }
    requires sums { AllByRecursion (λ sum. sum.at + 2 ≤ length frame.old) sums.now }
    ensures { frame.new ≡ fold changed frame.old (tcp_changes edits.now start sums.now) }
{
    assign_short(frame, start, edits.tcp_sport, sums);
    assign_short(frame, start + 2, edits.tcp_dport, sums);
    assign_long(frame, start + 4, edits.tcp_seq, sums);
    assign_long(frame, start + 8, edits.tcp_ack, sums);
    assign_reserved(frame, start, edits.tcp_reserved, sums);
    assign_flags(frame, start, edits.tcp_flags, sums);
    assign_short(frame, start + 14, edits.tcp_window, sums);
    assign_short(frame, start + 18, edits.tcp_urgent, sums);
}

fn patch_headers(edits: &Edits, frame: &mut [u8], headers: Headers)
    requires { HasRoom headers (length frame.old) }
    ensures { frame.new ≡ fold changed frame.old (header_changes edits.now headers) }
{
    match headers {
        Headers::Unread => {}
        Headers::Arp => patch_arp(edits, frame),
        Headers::Ipv4 => patch_ipv4(edits, frame, &[HEADER_SUM]),
        Headers::Udp(start) => {
            let udp = udp_sum(start);
            patch_ipv4(edits, frame, &[HEADER_SUM, udp]);
            patch_udp(edits, frame, start, &[udp]);
        }
        Headers::Tcp(start) => {
            let tcp = tcp_sum(start);
            patch_ipv4(edits, frame, &[HEADER_SUM, tcp]);
            patch_tcp(edits, frame, start, &[tcp]);
        }
    }
}

/// Assigns the fields that the packet of a frame has, in place, and mends the checksums over them (RFC 1624). All other
/// octets stay: padding, what is behind an end of options, surplus, and a checksum of UDP that was not computed. Then
/// the octets are a frame of the edited packet.
pub fn patch_frame(edits: &Edits, frame: &mut [u8])
    requires { (p : PacketView) × IsFrame p frame.old }
    ensures patched { frame.new ≡ patched edits.now frame.old }
    ensures edited { (p : PacketView) → IsFrame p frame.old → IsFrame (edited edits.now p) frame.new }
{
    edits.known_ranges();
    let headers = Headers::of(frame);
    patch_eth(edits, frame);
    patch_headers(edits, frame, headers);
}
