//! The lines of a capture's text.
ghost use Rattle.std.specs.Prelude.{◌<◌, ◌≤◌, length};

use narc_bits::MAX_FRAME;
use narc_pcap::Unit;
use narc_reading::{CaptureLine, EndLine, RecordLine};
use narc_text::put_packet;
use narc_world::MemorySink;
use std::alloc::Global;
use std::process::Abort;
use std::test::Fail;

/// Lines that no capture's text begins with.
const NO_CAPTURE: [&[u8]; 9] = [
    b"",
    b"capture",
    b"capture us",
    b"capture ms 65535",
    b"capture us 4294967296",
    b"capture us 065535",
    b"capture us 65535 ",
    b"capture us 65535 1",
    b"Capture us 65535",
];

/// Lines of which none is a record's with a packet.
const NO_RECORD: [&[u8]; 9] = [
    b"",
    b"rec 1 2",
    b"rec 1 2 ok",
    b"rec 1 2 eth 000000000000 000000000000 other 0 -",
    b"rec 1 2 refused ipv4.checksum 24",
    b"rec 1 2 snapped 20 60",
    b"rec 4294967296 2 ok eth 000000000000 000000000000 other 0 -",
    b"rec 1 02 ok eth 000000000000 000000000000 other 0 -",
    b"rec 1 2 ok eth 000000000000 000000000000 other 0 -\n",
];

/// Lines that no text of packets alone ends with.
const NO_END: [&[u8]; 9] = [
    b"",
    b"end 3 3 0",
    b"end 3 2 0 0",
    b"end 2 3 0 0",
    b"end 4 3 1 0",
    b"end 4 3 0 1",
    b"end 3 3 0 00",
    b"end 03 03 0 0",
    b"end 10000000000000000000 10000000000000000000 0 0",
];

#[test]
fn a_capture_has_its_unit_and_length(rt: HostRuntime) -> Result<(), Fail> {
    let line = CaptureLine::read(b"capture ns 4294967295")?;
    assert!(rt; line.unit == Unit::Nano);
    assert_eq!(rt; line.snap, 4_294_967_295);
    assert!(rt; CaptureLine::read(b"capture us 0")?.unit == Unit::Micro);
    for line in NO_CAPTURE {
        assert!(rt; CaptureLine::read(line).is_err());
    }
    Ok(())
}

fn is_record(alloc: Global, line: &[u8]) -> Result<bool, Fail> {
    let mut store = vec![in alloc; 0u8; MAX_FRAME]?;
    Ok(RecordLine::read(line, store.as_mut_slice()).is_ok())
}

#[test]
fn a_record_has_its_time_and_packet(rt: HostRuntime) -> Result<(), Fail> {
    let mut store = vec![in rt.alloc(); 0u8; MAX_FRAME]?;
    let text = b"rec 4294967295 250000 ok eth 000000000000 0000000000ff other 34997 00";
    let line = RecordLine::read(text, store.as_mut_slice())?;
    assert_eq!(rt; line.sec, 4_294_967_295);
    assert_eq!(rt; line.sub, 250_000);
    assert!(rt; line.packet.src == [0, 0, 0, 0, 0, 255]);
    for line in NO_RECORD {
        assert!(rt; !is_record(rt.alloc(), line)?);
    }
    Ok(())
}

#[test]
fn a_last_line_has_its_count(rt: HostRuntime) -> Result<(), Fail> {
    assert_eq!(rt; EndLine::read(b"end 0 0 0 0")?.packets, 0);
    assert_eq!(rt;
        EndLine::read(b"end 9999999999999999999 9999999999999999999 0 0")?.packets,
        9_999_999_999_999_999_999
    );
    for line in NO_END {
        assert!(rt; EndLine::read(line).is_err());
    }
    Ok(())
}

/// Lines of a capture's text, one of each kind.
const LINES: [&[u8]; 3] = [
    b"capture us 65535",
    b"rec 1 250000 ok eth 0200000000aa 0200000000bb other 34997 00",
    b"end 17 17 0 0",
];

/// Sees that the line is the first of a capture with the unit and the length that are read, if it is read.
fn assert_capture(rt: &impl Abort, alloc: Global, line: &[u8]) -> Result<(), Fail> {
    let Ok(head) = CaptureLine::read(line) else {
        return Ok(());
    };
    let unit = if head.unit == Unit::Nano { "ns" } else { "us" };
    let snap = head.snap;
    let text = format!(in alloc; "capture {unit} {snap}")?;
    assert!(rt; text.as_bytes() == line);
    Ok(())
}

/// Sees that the line is that of the record that is read, if one is.
fn assert_record(rt: &impl Abort, alloc: Global, line: &[u8], store: &mut [u8]) -> Result<(), Fail>
    requires { MAX_FRAME ≤ length store.old }
{
    let Ok(record) = RecordLine::read(line, store) else {
        return Ok(());
    };
    let sec = record.sec;
    let sub = record.sub;
    let front = format!(in alloc; "rec {sec} {sub} ok ")?;
    let mut sink = MemorySink::new(alloc, 200, &[])?;
    put_packet(&record.packet, &mut sink)?;
    assert!(rt; line.strip_prefix(front.as_bytes()) == Some(sink.bytes()));
    Ok(())
}

/// Sees that the line is the last with the count that is read, if it is read.
fn assert_end(rt: &impl Abort, alloc: Global, line: &[u8]) -> Result<(), Fail> {
    let Ok(last) = EndLine::read(line) else {
        return Ok(());
    };
    let count = last.packets;
    let text = format!(in alloc; "end {count} {count} 0 0")?;
    assert!(rt; text.as_bytes() == line);
    Ok(())
}

/// Sees that the line is none, or the line of what is read.
fn assert_exact(rt: &impl Abort, alloc: Global, line: &[u8], store: &mut [u8]) -> Result<(), Fail>
    requires { MAX_FRAME ≤ length store.old }
{
    assert_capture(rt, alloc, line)?;
    assert_record(rt, alloc, line, store)?;
    assert_end(rt, alloc, line)
}

/// Sees that the line with any bit of this octet changed is none, or the line of what is read.
fn assert_fragile(
    rt: &impl Abort,
    alloc: Global,
    text: &[u8],
    at: usize,
    store: &mut [u8],
) -> Result<(), Fail>
    requires inside { at < length text.now }
    requires room { MAX_FRAME ≤ length store.old }
{
    let mut line = Vec::from_slice(alloc, text)?;
    let line = line.as_mut_slice();
    for bit in [1u8, 2, 4, 8, 16, 32, 64, 128] {
        line[at] ^= bit;
        assert_exact(rt, alloc, line, store)?;
        line[at] ^= bit;
    }
    Ok(())
}

#[test]
fn a_line_that_is_cut_or_changed_is_refused_or_another_line(rt: HostRuntime) -> Result<(), Fail> {
    let mut room = vec![in rt.alloc(); 0u8; MAX_FRAME]?;
    let store = room.as_mut_slice();
    for text in LINES {
        for at in 0..text.len() {
            assert_exact(&rt, rt.alloc(), &text[..at], store)?;
            assert_fragile(&rt, rt.alloc(), text, at, store)?;
        }
    }
    Ok(())
}
