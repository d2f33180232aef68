//! Captures that are written.
ghost use Rattle.std.specs.Prelude.{◌≡◌, ◌≤◌, [], OnOk};

use super::captures::{FIRST, SECOND, TWO, TWO_LITTLE};
use narc_pcap::{Fill, Header, Unit, Writer, write_header, write_record};
use narc_world::{Failed, MemorySink, Sink, zeros};
use std::test::Fail;

/// The header of `TWO` or of `TWO_LITTLE`.
fn header(big: bool) -> Header {
    let (unit, zone, accuracy) = if big {
        (Unit::Micro, 0, 0)
    } else {
        (Unit::Nano, 0x201, 0x403)
    };
    Header {
        big,
        unit,
        zone,
        accuracy,
        snap: 65_535,
    }
}

/// A frame that is copied into its place.
struct Copied<'a> {
    octets: &'a [u8],
}

impl Fill for Copied<'_> {
    ghost can_fill = { λ copied. Unit {0} };

    ghost frame = { λ copied. copied.octets.now };

    fn fill(&self, room: &mut [u8]) -> usize {
        room[..self.octets.len()].copy_from_slice(self.octets);
        self.octets.len()
    }
}

/// Writes a header, and then both records in one push.
fn write_both<K: Sink>(big: bool, writer: &mut Writer, sink: &mut K) -> Result<(), Failed>
    requires empty { writer.old.octets ≡ [] }
    requires room { 59 ≤ writer.old.size }
    ensures empty { OnOk result (writer.new.octets ≡ []) }
{
    writer.header(&header(big));
    writer.flush(sink)?;
    writer.frame(
        big,
        FIRST.sec,
        FIRST.sub,
        &Copied {
            octets: &[10, 11, 12],
        },
    );
    writer.record(big, &SECOND, &[]);
    writer.flush(sink)
}

#[test]
fn a_capture_is_gathered_and_each_full_sink_keeps_a_front(rt: HostRuntime) -> Result<(), Fail> {
    for (big, octets) in [(true, &TWO), (false, &TWO_LITTLE)] {
        for room in 0..60 {
            let mut writer = Writer::new(zeros(rt.alloc(), 59)?);
            let mut sink = MemorySink::new(rt.alloc(), room, &[])?;
            let written = write_both(big, &mut writer, &mut sink);
            assert_eq!(rt; written.is_ok(), room == 59);
            assert!(rt; sink.bytes() == &octets[..room]);
        }
    }
    Ok(())
}

#[test]
fn a_header_and_records_go_straight_to_a_sink(rt: HostRuntime) -> Result<(), Fail> {
    for (big, octets) in [(true, &TWO), (false, &TWO_LITTLE)] {
        let mut sink = MemorySink::new(rt.alloc(), 59, &[])?;
        assert!(rt; write_header(&mut sink, &header(big)).is_ok());
        assert!(rt; write_record(&mut sink, big, &FIRST, &[10, 11, 12]).is_ok());
        assert!(rt; write_record(&mut sink, big, &SECOND, &[]).is_ok());
        assert!(rt; sink.bytes() == octets.as_slice());
        assert!(rt; write_record(&mut sink, big, &SECOND, &[]).is_err());
    }
    Ok(())
}
