//! The text of a packet, read.
ghost use Rattle.std.specs.Prelude.{◌≡◌, ◌≤◌, ◌+◌, ◌-◌, ◌*◌, ◌∷◌, codes, IfOk, length};
ghost use Rattle.narc_packet.specs.PacketView.{PacketView, ArpBody, UdpBody, TcpBody, Ipv4Body, view, udp_view, tcp_view, ip_body_view, ipv4_view, eth_body_view};
ghost use Rattle.narc_packet.specs.Options.{AreTcpOptions};
ghost use Rattle.narc_packet.specs.Ranges.{IsArpInRange};
ghost use Rattle.narc_packet.specs.WellFormed.{IsWellFormed, SpellsIpBody, SpellsIpv4, SpellsEthBody, SpellsOptions};
ghost use Rattle.narc_text.specs.PacketText.{ip_body_words, eth_body_words, packet_words, text};
ghost use Rattle.narc_reading.specs.Readable.{IsReadableUdp, IsReadableTcp, IsReadableIpBody, IsReadableIpv4, IsReadableEthBody};
ghost use Rattle.narc_reading.specs.Reading.{IsRead, IsReadBy};

use crate::error::BadLine;
use crate::options::{read_ip_options, read_tcp_options};
use crate::parts::{Parts, Separator, is_word};
use narc_bits::MAX_FRAME;
use narc_packet::{Arp, EthBody, IpBody, Ipv4, MAX_AREA, Packet, Tcp, Udp, is_well_formed};

/// An ARP packet, behind its name.
fn read_arp(words: &mut Parts<'_>) -> Result<Arp, BadLine>
    ensures { IsRead (λ a. eth_body_words (ArpBody a)) IsArpInRange (codes "arp" ∷ words.old) result }
{
    let op = words.short()?;
    let sender_mac = words.mac()?;
    let sender_ip = words.ip()?;
    let target_mac = words.mac()?;
    let target_ip = words.ip()?;
    words.end()?;
    Ok(Arp {
        op,
        sender_mac,
        sender_ip,
        target_mac,
        target_ip,
    })
}

/// A UDP datagram, behind its name. Its payload is put into the room.
fn read_udp<'r>(words: &mut Parts<'_>, room: &'r mut [u8]) -> Result<Udp<'r>, BadLine>
    ensures { IsReadBy udp_view (λ u. ip_body_words (UdpBody u)) (IsReadableUdp (length room.old)) (codes "udp" ∷ words.old) result }
{
    let sport = words.short()?;
    let dport = words.short()?;
    let payload = words.last_hex(room)?;
    Ok(Udp {
        sport,
        dport,
        payload,
    })
}

/// A TCP segment, behind its name. Its options are spelled into the area, and its payload is put into the room.
fn read_tcp<'r>(
    words: &mut Parts<'_>,
    area: &'r mut [u8],
    room: &'r mut [u8],
) -> Result<Tcp<'r>, BadLine>
    requires { MAX_AREA ≤ length area.old }
    ensures read { IsReadBy tcp_view (λ t. ip_body_words (TcpBody t)) (IsReadableTcp (length room.old)) (codes "tcp" ∷ words.old) result }
    ensures spelled { IfOk result (λ t. AreTcpOptions t.options.spelled.now) }
{
    let sport = words.short()?;
    let dport = words.short()?;
    let seq = words.long()?;
    let ack = words.long()?;
    let reserved = words.number(64)?;
    let flags = words.flags()?;
    let window = words.short()?;
    let urgent = words.short()?;
    let listed = words.next()?;
    let options = read_tcp_options(listed, area)?;
    let payload = words.last_hex(room)?;
    Ok(Tcp {
        sport,
        dport,
        seq,
        ack,
        reserved: reserved as u8,
        flags,
        window,
        urgent,
        options,
        payload,
    })
}

/// Data of another protocol, or of a fragment, behind its name.
fn read_raw<'r>(words: &mut Parts<'_>, room: &'r mut [u8]) -> Result<IpBody<'r>, BadLine>
    ensures read { IsReadBy ip_body_view ip_body_words (λ b. IsReadableIpBody (length room.old) b) (codes "raw" ∷ words.old) result }
    ensures spelled { IfOk result SpellsIpBody }
{
    let protocol = words.octet()?;
    let payload = words.last_hex(room)?;
    Ok(IpBody::Raw { protocol, payload })
}

/// What an IPv4 packet carries.
fn read_ip_body<'r>(
    words: &mut Parts<'_>,
    area: &'r mut [u8],
    room: &'r mut [u8],
) -> Result<IpBody<'r>, BadLine>
    requires { MAX_AREA ≤ length area.old }
    ensures read { IsReadBy ip_body_view ip_body_words (IsReadableIpBody (length room.old)) words.old result }
    ensures spelled { IfOk result SpellsIpBody }
{
    let name = words.next()?;
    if is_word(name, b"udp") {
        let udp = read_udp(words, room)?;
        return Ok(IpBody::Udp(udp));
    }
    if is_word(name, b"tcp") {
        let tcp = read_tcp(words, area, room)?;
        return Ok(IpBody::Tcp(tcp));
    }
    if is_word(name, b"raw") {
        return read_raw(words, room);
    }
    Err(BadLine)
}

/// An IPv4 packet, behind its name. Its options and its payload are put into the store.
fn read_ipv4<'r>(words: &mut Parts<'_>, store: &'r mut [u8]) -> Result<Ipv4<'r>, BadLine>
    requires { 2 * MAX_AREA ≤ length store.old }
    ensures read { IsReadBy ipv4_view (λ p. eth_body_words (Ipv4Body p)) (IsReadableIpv4 (length store.old)) (codes "ip4" ∷ words.old) result }
    ensures spelled { IfOk result SpellsIpv4 }
{
    let (areas, room) = store.split_at_mut(2 * MAX_AREA);
    let (area, tcp_area) = areas.split_at_mut(MAX_AREA);
    let tos = words.octet()?;
    let id = words.short()?;
    let (df, mf) = words.fragment()?;
    let offset = words.number(8192)?;
    let ttl = words.octet()?;
    let src = words.ip()?;
    let dst = words.ip()?;
    let listed = words.next()?;
    let options = read_ip_options(listed, area)?;
    let body = read_ip_body(words, tcp_area, room)?;
    Ok(Ipv4 {
        tos,
        id,
        df,
        mf,
        offset: offset as u16,
        ttl,
        src,
        dst,
        options,
        body,
    })
}

/// What a frame carries that is kept unread, behind its name.
fn read_other<'r>(words: &mut Parts<'_>, room: &'r mut [u8]) -> Result<EthBody<'r>, BadLine>
    ensures read { IsReadBy eth_body_view eth_body_words (IsReadableEthBody (length room.old)) (codes "other" ∷ words.old) result }
    ensures spelled { IfOk result SpellsEthBody }
{
    let ether_type = words.short()?;
    let payload = words.last_hex(room)?;
    Ok(EthBody::Other {
        ether_type,
        payload,
    })
}

/// What a frame carries.
fn read_body<'r>(words: &mut Parts<'_>, store: &'r mut [u8]) -> Result<EthBody<'r>, BadLine>
    requires { 2 * MAX_AREA ≤ length store.old }
    ensures read { IsReadBy eth_body_view eth_body_words (IsReadableEthBody (length store.old)) words.old result }
    ensures spelled { IfOk result SpellsEthBody }
{
    let name = words.next()?;
    if is_word(name, b"ip4") {
        let ip = read_ipv4(words, store)?;
        return Ok(EthBody::Ip(ip));
    }
    if is_word(name, b"arp") {
        let arp = read_arp(words)?;
        return Ok(EthBody::Arp(arp));
    }
    if is_word(name, b"other") {
        return read_other(words, store);
    }
    Err(BadLine)
}

/// The packet whose text is made of these words.
pub(crate) fn read_words<'r>(
    words: &mut Parts<'_>,
    store: &'r mut [u8],
) -> Result<Packet<'r>, BadLine>
    requires { MAX_FRAME ≤ length store.old }
    ensures read { IsReadBy view packet_words IsWellFormed words.old result }
    ensures spelled { IfOk result SpellsOptions }
{
    words.expect(b"eth")?;
    let dst = words.mac()?;
    let src = words.mac()?;
    let body = read_body(words, store)?;
    let packet = Packet { dst, src, body };
    if is_well_formed(&packet) {
        Ok(packet)
    } else {
        Err(BadLine)
    }
}

/// The packet whose text the line is. Its options and its payload lie in the store, of at least `MAX_FRAME` octets. `BadLine` exactly
/// where the line is the text of no packet that has a frame.
pub fn read_packet<'r>(line: &[u8], store: &'r mut [u8]) -> Result<Packet<'r>, BadLine>
    requires { MAX_FRAME ≤ length store.old }
    ensures read { IsReadBy view text IsWellFormed line.now result }
    ensures only { IfOk result (λ found. (p : PacketView) → IsWellFormed p → line.now ≡ text p → p ≡ view found) }
    ensures spelled { IfOk result SpellsOptions }
{
    let mut words = Parts::of(line, Separator::Space);
    read_words(&mut words, store)
}
