//! The octets of a capture on their way to a sink.
ghost use Rattle.std.specs.Prelude.{◌≡◌, ◌+◌, ◌≤◌, length, OnErr};
ghost use Rattle.narc_world.specs.Outside.{CountsFaults};
ghost use Rattle.narc_packet.specs.Canonical.{canonical_frame};
ghost use Rattle.narc_packet.specs.PacketView.{view};
ghost use Rattle.narc_packet.specs.WellFormed.{IsWellFormed, SpellsOptions};
ghost use Rattle.narc_text.specs.Printing.{IsPrinted};
ghost use Rattle.narc_pcap.specs.Written.{head_octets, header_octets, record_octets, whole_record};

use narc_build::Encoded;
use narc_packet::Packet;
use narc_pcap::{
    HEAD_SIZE, HEADER_SIZE, Header, LONGEST_RECORD, Record, put_head, put_header, put_record,
};
use narc_stack::frame_size;
use narc_text::{PAGE_SIZE, Page};
use narc_world::{Failed, Sink};

/// Prints octets: by way of the page, or right behind it where they are more than a page has.
fn print_octets<K: Sink>(octets: &[u8], page: &mut Page, sink: &mut K) -> Result<(), Failed>
    ensures printed { IsPrinted result octets.now page.old page.new (K.held sink.old) (K.held sink.new) }
    ensures faults { CountsFaults (OnErr result) (K.faults sink.old) (K.faults sink.new) }
{
    if octets.len() > PAGE_SIZE {
        page.flush(sink)?;
        return sink.push(octets);
    }
    page.make_room(octets.len(), sink)?;
    page.put(octets);
    Ok(())
}

/// Prints the header of a capture.
pub(crate) fn print_capture_header<K: Sink>(
    header: &Header,
    page: &mut Page,
    sink: &mut K,
) -> Result<(), Failed>
    ensures printed { IsPrinted result (header_octets header.now) page.old page.new (K.held sink.old) (K.held sink.new) }
    ensures faults { CountsFaults (OnErr result) (K.faults sink.old) (K.faults sink.new) }
{
    let mut octets = [0; HEADER_SIZE];
    put_header(header, &mut octets);
    print_octets(&octets, page, sink)
}

/// Prints the header of a record.
fn print_record_header<K: Sink>(
    big: bool,
    head: &Record,
    page: &mut Page,
    sink: &mut K,
) -> Result<(), Failed>
    ensures printed { IsPrinted result (head_octets big head.now.sec head.now.sub head.now.captured head.now.original) page.old page.new (K.held sink.old) (K.held sink.new) }
    ensures faults { CountsFaults (OnErr result) (K.faults sink.old) (K.faults sink.new) }
{
    let mut octets = [0; HEAD_SIZE];
    put_head(
        big,
        head.sec,
        head.sub,
        head.captured,
        head.original,
        &mut octets,
    );
    print_octets(&octets, page, sink)
}

/// Prints a record, its header and then these octets.
pub(crate) fn print_entry<K: Sink>(
    big: bool,
    head: &Record,
    octets: &[u8],
    page: &mut Page,
    sink: &mut K,
) -> Result<(), Failed>
    ensures printed { IsPrinted result (record_octets big head.now octets.now) page.old page.new (K.held sink.old) (K.held sink.new) }
    ensures faults { CountsFaults (OnErr result) (K.faults sink.old) (K.faults sink.new) }
{
    print_record_header(big, head, page, sink)?;
    print_octets(octets, page, sink)
}

/// Prints a record that is longer than a page: its frame is encoded into the store.
fn print_long_frame<K: Sink>(
    big: bool,
    head: &Record,
    packet: &Packet<'_>,
    store: &mut [u8],
    page: &mut Page,
    sink: &mut K,
) -> Result<(), Failed>
    requires well_formed { IsWellFormed (view packet.now) }
    requires spelled { SpellsOptions packet.now }
    requires store { LONGEST_RECORD ≤ length store.old }
    ensures printed { IsPrinted result (whole_record big head.now.sec head.now.sub (canonical_frame (view packet.now))) page.old page.new (K.held sink.old) (K.held sink.new) }
    ensures faults { CountsFaults (OnErr result) (K.faults sink.old) (K.faults sink.new) }
    ensures len { length store.new ≡ length store.old }
{
    let end = put_record(store, 0, big, head.sec, head.sub, &Encoded { packet });
    print_octets(&store[..end], page, sink)
}

/// Prints a record with the frame of a packet, which is encoded straight into its place on the page, where it has room there.
pub(crate) fn print_frame<K: Sink>(
    big: bool,
    head: &Record,
    packet: &Packet<'_>,
    store: &mut [u8],
    page: &mut Page,
    sink: &mut K,
) -> Result<(), Failed>
    requires well_formed { IsWellFormed (view packet.now) }
    requires spelled { SpellsOptions packet.now }
    requires store { LONGEST_RECORD ≤ length store.old }
    ensures printed { IsPrinted result (whole_record big head.now.sec head.now.sub (canonical_frame (view packet.now))) page.old page.new (K.held sink.old) (K.held sink.new) }
    ensures faults { CountsFaults (OnErr result) (K.faults sink.old) (K.faults sink.new) }
    ensures len { length store.new ≡ length store.old }
{
    let size = HEAD_SIZE + frame_size(packet);
    if size > PAGE_SIZE {
        return print_long_frame(big, head, packet, store, page, sink);
    }
    page.make_room(size, sink)?;
    page.put_record(big, head.sec, head.sub, &Encoded { packet });
    Ok(())
}
