//! A capture made of its text.
ghost use Rattle.std.specs.Prelude.{◌≡◌, ◌<◌, ◌≤◌, ◌⊎◌, ℕ, [], length, IfOk, OnErr, OnOk};
ghost use Rattle.narc_world.specs.Outside.{CountsFaults};
ghost use Rattle.narc_world.specs.Intake.{taken};
ghost use Rattle.narc_lines.specs.Lines.{IsOpen};
ghost use Rattle.narc_lines.specs.Reading.{IsReady};
ghost use Rattle.narc_text.specs.Printing.{IsPrinted};
ghost use Rattle.narc_build.specs.TextEnd.{IsTextEnded};
ghost use Rattle.narc_build.specs.Building.{BuildRun, IsShown, SourceFault};

use crate::build_line::{BuiltLine, build_header, build_line};
use crate::ending::Built;
use crate::limits::{LINE_BUFFER, LONGEST_LINE, OUTPUT_BUFFER};
use narc_bits::MAX_FRAME;
use narc_lines::{Behind, LineReader, NextLine};
use narc_pcap::Writer;
use narc_world::{Failed, INPUT_LIMIT, Sink, Source};

/// Pushes all that is gathered, and ends so.
fn end_build<K: Sink>(ending: Built, writer: &mut Writer, sink: &mut K) -> Result<Built, Failed>
    ensures shown { IsShown result writer.old.octets ending (K.held sink.old) (K.held sink.new) }
    ensures faults { CountsFaults (OnErr result) (K.faults sink.old) (K.faults sink.new) }
{
    writer.flush(sink)?;
    Ok(ending)
}

/// Pushes all that is gathered before a line that has to be pulled. So what is made of the lines in hand always has its
/// place: a record is no longer than its line.
fn tell_waiting<K: Sink>(
    lines: &mut LineReader,
    writer: &mut Writer,
    sink: &mut K,
) -> Result<(), Failed>
    ensures printed { IsPrinted result [] writer.old.octets writer.new.octets (K.held sink.old) (K.held sink.new) }
    ensures size { writer.new.size ≡ writer.old.size }
    ensures lines { lines.new ≡ lines.old }
    ensures waiting { OnErr result (IsOpen lines.old.longest lines.old.input.hand) }
    ensures room { OnOk result (IsReady lines.old ⊎ (writer.new.octets ≡ [])) }
    ensures faults { CountsFaults (OnErr result) (K.faults sink.old) (K.faults sink.new) }
{
    if lines.is_ready() {
        return Ok(());
    }
    writer.flush(sink)
}

/// Ends a capture behind the last line of its text: nothing may stand there.
fn end_text<S: Source, K: Sink>(
    lines: &mut LineReader,
    writer: &mut Writer,
    source: &mut S,
    sink: &mut K,
) -> Result<Built, Failed>
    requires { 0 < lines.old.longest }
    ensures reach { OnOk result (taken lines.new.input ≤ INPUT_LIMIT) }
    ensures ended { IsTextEnded lines.old lines.new (S.left source.old) (S.left source.new) writer.old (K.held sink.old) (K.held sink.new) result }
    ensures source_faults { CountsFaults (SourceFault result) (S.faults source.old) (S.faults source.new) }
    ensures sink_faults { CountsFaults (OnErr result) (K.faults sink.old) (K.faults sink.new) }
{
    writer.flush(sink)?;
    match lines.behind(source) {
        Behind::End => Ok(Built::Done),
        Behind::More => Ok(Built::Bad(lines.place())),
        Behind::ReadFault => Ok(Built::ReadFault(lines.taken())),
        Behind::Long => Ok(Built::Long),
    }
}

/// Reads the text of a capture from the source by way of a buffer, and writes the capture as it comes by way of another. The options and
/// the payload of a packet lie in the store. `Failed` only where the sink failed.
pub fn build<S: Source, K: Sink>(
    line: Vec<u8>,
    store: &mut [u8],
    output: Vec<u8>,
    source: &mut S,
    sink: &mut K,
) -> Result<Built, Failed>
    requires line { length line.items ≡ LINE_BUFFER }
    requires store { MAX_FRAME ≤ length store.old }
    requires output { length output.items ≡ OUTPUT_BUFFER }
    ensures run { BuildRun (S.left source.old) (S.left source.new) (K.held sink.old) (K.held sink.new) result }
    ensures source_faults { CountsFaults (SourceFault result) (S.faults source.old) (S.faults source.new) }
    ensures sink_faults { CountsFaults (OnErr result) (K.faults sink.old) (K.faults sink.new) }
{
    let mut lines = LineReader::new(line, LONGEST_LINE);
    let mut writer = Writer::new(output);
    match lines.next(source) {
        NextLine::Line => {}
        NextLine::End | NextLine::Torn | NextLine::Endless => return Ok(Built::Bad(0)),
        NextLine::ReadFault => return Ok(Built::ReadFault(lines.taken())),
        NextLine::Long => unreachable!(),
    }
    if build_header(lines.line(), &mut writer).is_err() {
        return Ok(Built::Bad(0));
    }
    let mut records = 0;
    'lines: loop {
        tell_waiting(&mut lines, &mut writer, sink)?;
        let at = lines.place();
        match lines.next(source) {
            NextLine::Line => match build_line(lines.line(), records, store, &mut writer) {
                BuiltLine::Record => records += 1,
                BuiltLine::End => return end_text(&mut lines, &mut writer, source, sink),
                BuiltLine::Bad => return end_build(Built::Bad(at), &mut writer, sink),
            },
            NextLine::End | NextLine::Torn | NextLine::Endless => {
                return end_build(Built::Bad(at), &mut writer, sink);
            }
            NextLine::ReadFault => {
                return end_build(Built::ReadFault(lines.taken()), &mut writer, sink);
            }
            NextLine::Long => return end_build(Built::Long, &mut writer, sink),
        }
    }
}
