//! Words as assignments, one for each kind of value, and words that are none.
use super::read;
use narc_edit::SixBits;
use std::alloc::Global;
use std::test::Fail;

#[test]
fn values_of_each_kind_are_read(rt: HostRuntime) -> Result<(), Fail> {
    let words = [
        "eth.dst=0200000000aa",
        "arp.spa=10.0.0.255",
        "ip.tos=255",
        "ip.df=1",
        "udp.sport=65535",
        "tcp.seq=4294967295",
        "tcp.reserved=63",
        "tcp.flags=U..R.F",
    ];
    let edits = read(rt.alloc(), &words)?.ok_or("no assignments")?;
    assert_eq!(rt; edits.eth_dst, Some([2, 0, 0, 0, 0, 0xaa]));
    assert_eq!(rt; edits.arp_spa, Some([10, 0, 0, 255]));
    assert_eq!(rt; edits.ip_tos, Some(255));
    assert_eq!(rt; edits.ip_df, Some(true));
    assert_eq!(rt; edits.udp_sport, Some(65535));
    assert_eq!(rt; edits.tcp_seq, Some(4_294_967_295));
    assert_eq!(rt; edits.tcp_reserved, Some(SixBits::new(63)));
    assert_eq!(rt; edits.tcp_flags, Some(SixBits::new(0b100101)));
    assert_eq!(rt; edits.ip_id, None);
    Ok(())
}

/// Whether these words are assignments.
fn are_edits(alloc: Global, words: &[&str]) -> Result<bool, Fail> {
    let none: Option<SixBits> = None;
    match read(alloc, words)? {
        Some(edits) => Ok(edits.tcp_flags == none),
        None => Ok(false),
    }
}

#[test]
fn other_words_are_no_assignments(rt: HostRuntime) -> Result<(), Fail> {
    let refused = [
        "",
        "ip.ttl",
        "=5",
        "ip.hops=5",
        "IP.TTL=5",
        "ip.ttl=",
        "ip.ttl= 5",
        "ip.ttl=+5",
        "ip.ttl=05",
        "ip.ttl=5=5",
        "ip.ttl=256",
        "ip.df=2",
        "arp.op=65536",
        "tcp.seq=4294967296",
        "tcp.reserved=64",
        "ip.src=10.0.0",
        "ip.src=10.0.0.0.1",
        "ip.src=10.0.0.256",
        "eth.dst=0200000000AA",
        "eth.dst=0200000000a",
        "tcp.flags=.A..F.",
        "tcp.flags=.A...",
    ];
    for word in refused {
        assert!(rt; !are_edits(rt.alloc(), &["ip.tos=1", word])?);
    }
    assert!(rt; !are_edits(rt.alloc(), &["ip.tos=1", "ip.ttl=5", "ip.tos=1"])?);
    assert!(rt; are_edits(rt.alloc(), &["ip.tos=1", "ip.ttl=5"])?);
    assert!(rt; are_edits(rt.alloc(), &[])?);
    Ok(())
}
