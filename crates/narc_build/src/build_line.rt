//! What is built of one line of a capture's text.
ghost use Rattle.std.specs.Prelude.{◌≡◌, ◌≢◌, ◌+◌, ◌<◌, ◌≤◌, ◌^◌, ◌++◌, ◌∷◌, [], length, MatchBool};
ghost use Rattle.narc_text.specs.CaptureText.{end_line};
ghost use Rattle.narc_build.specs.BuiltLine.{IsHeaderBuilt, IsLineBuilt};

use crate::encoded::Encoded;
use narc_bits::MAX_FRAME;
use narc_pcap::{Header, Writer};
use narc_reading::{BadLine, CaptureLine, EndLine, RecordLine};

/// What a line behind the first one is.
#[derive(Drop)]
pub(crate) enum BuiltLine {
    /// The line of a record, which is written.
    Record,
    /// The last line.
    End,
    /// None that may follow the lines before.
    Bad,
}

/// Writes the header of the capture of whose text this is the first line, without its line feed.
pub(crate) fn build_header(line: &[u8], writer: &mut Writer) -> Result<(), BadLine>
    requires { length writer.old.octets + 24 ≤ writer.old.size }
    ensures built { IsHeaderBuilt (line.now ++ 10 ∷ []) writer.old writer.new result }
    ensures size { writer.new.size ≡ writer.old.size }
{
    let CaptureLine { unit, snap } = CaptureLine::read(line)?;
    writer.header(&Header {
        big: true,
        unit,
        zone: 0,
        accuracy: 0,
        snap,
    });
    Ok(())
}

/// Whether this is the last line behind so many records, without its line feed.
fn is_end(line: &[u8], records: u64) -> bool
    requires { records < 10 ^ 19 }
    ensures { MatchBool result (line.now ++ 10 ∷ [] ≡ end_line records records 0 0) (line.now ++ 10 ∷ [] ≢ end_line records records 0 0) }
{
    match EndLine::read(line) {
        Ok(end) => end.packets == records,
        Err(_) => false,
    }
}

/// Writes the record of which this is the line, without its line feed, or finds that it is the last line behind so many
/// records, or none that may follow them.
pub(crate) fn build_line(
    line: &[u8],
    records: u64,
    store: &mut [u8],
    writer: &mut Writer,
) -> BuiltLine
    requires few { records < 10 ^ 19 }
    requires store { MAX_FRAME ≤ length store.old }
    requires room { length writer.old.octets + (length line.now + 1) ≤ writer.old.size }
    ensures built { IsLineBuilt (line.now ++ 10 ∷ []) records writer.old writer.new result }
    ensures size { writer.new.size ≡ writer.old.size }
{
    if let Ok(RecordLine { sec, sub, packet }) = RecordLine::read(line, store) {
        writer.frame(true, sec, sub, &Encoded { packet: &packet });
        return BuiltLine::Record;
    }
    if is_end(line, records) {
        BuiltLine::End
    } else {
        BuiltLine::Bad
    }
}
