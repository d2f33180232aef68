//! The job `frame`: one raw frame, the whole input.
ghost use Rattle.std.specs.Prelude.{◌≡◌, ◌+◌, ◌*◌, ◌≤◌, length, IfOk, MatchResult, OnErr};
ghost use Rattle.narc_bits.specs.Octets.{IsOctets};
ghost use Rattle.narc_world.specs.Outside.{CountsFaults, IsPushed};
ghost use Rattle.narc_stack.specs.AnswerView.{answer_view};
ghost use Rattle.narc_packet.specs.PacketView.{view};
ghost use Rattle.narc_text.specs.Lines.{ok_line};
ghost use Rattle.narc_text.specs.Printing.{IsPrinted};
ghost use Rattle.narc_run.specs.Output.{answer_line, refusal_line};
ghost use Rattle.narc_run.specs.FrameAnswer.{IsAnswered, IsCut};
ghost use Rattle.narc_run.specs.StreamRun.{StreamRun, run_of};
ghost use Rattle.narc_run.specs.Job.{Frame};
ghost use Rattle.narc_run.specs.Run.{AreCounted, IsRight};

use crate::input::{Filled, fill};
use crate::outcome::Outcome;
use crate::steps::RunSteps;
use narc_bits::MAX_FRAME;
use narc_packet::{Packet, field};
use narc_stack::{Refusal, decode_frame};
use narc_text::{Page, print_packet, put_decimal};
use narc_world::{FRAME_BUFFER, Failed, Sink, Source, zeros};
use std::alloc::Global;
use std::sync::ledger::Ledger;

/// More octets than the line of a refusal has.
const REFUSAL: usize = 80;

/// The line of a packet.
fn print_ok<K: Sink>(packet: &Packet<'_>, page: &mut Page, sink: &mut K) -> Result<(), Failed>
    ensures printed { IsPrinted result (ok_line (view packet.now)) page.old page.new (K.held sink.old) (K.held sink.new) }
    ensures faults { CountsFaults (OnErr result) (K.faults sink.old) (K.faults sink.new) }
{
    page.make_room(3, sink)?;
    page.put(b"ok ");
    print_packet(packet, page, sink)?;
    page.make_room(1, sink)?;
    page.put(b"\n");
    Ok(())
}

/// The line of a refusal.
fn print_refusal<K: Sink>(refusal: &Refusal, page: &mut Page, sink: &mut K) -> Result<(), Failed>
    ensures printed { IsPrinted result (refusal_line refusal.now.field refusal.now.at) page.old page.new (K.held sink.old) (K.held sink.new) }
    ensures faults { CountsFaults (OnErr result) (K.faults sink.old) (K.faults sink.new) }
{
    page.make_room(REFUSAL, sink)?;
    page.put(b"refused ");
    page.put(field::name(refusal.field).as_bytes());
    page.put(b" ");
    put_decimal(page, refusal.at);
    page.put(b"\n");
    Ok(())
}

/// The line for a frame.
pub(crate) fn print_answer<K: Sink>(
    answer: &Result<Packet<'_>, Refusal>,
    page: &mut Page,
    sink: &mut K,
) -> Result<(), Failed>
    ensures printed { IsPrinted result (answer_line (answer_view answer.now)) page.old page.new (K.held sink.old) (K.held sink.new) }
    ensures faults { CountsFaults (OnErr result) (K.faults sink.old) (K.faults sink.new) }
{
    match answer {
        Ok(packet) => print_ok(packet, page, sink),
        Err(refusal) => print_refusal(refusal, page, sink),
    }
}

/// Writes the line for a frame.
fn put_answer<K: Sink>(answer: &Result<Packet<'_>, Refusal>, sink: &mut K) -> Result<(), Failed>
    ensures pushed { IsPushed result (K.held sink.old) (K.held sink.new) (answer_line (answer_view answer.now)) }
    ensures faults { CountsFaults (OnErr result) (K.faults sink.old) (K.faults sink.new) }
{
    let mut page = Page::new();
    print_answer(answer, &mut page, sink)?;
    page.flush(sink)
}

/// Answers a whole frame: its line, and the outcome.
fn answer_frame<K: Sink, L: Ledger, J: Ledger>(
    octets: &[u8],
    sink: &mut K,
    steps: &mut RunSteps<L, J>,
) -> Result<Outcome, Failed>
    requires { length octets.now ≤ MAX_FRAME }
    ensures told { MatchResult result (λ outcome. IsAnswered octets.now outcome.status outcome.at (K.held sink.old) (K.held sink.new)) (λ _. IsCut octets.now (K.held sink.old) (K.held sink.new)) }
    ensures status { IfOk result (λ outcome. outcome.status ≤ 3) }
    ensures cost { steps.new ≤ steps.old + (16 * length octets.now + 1) }
    ensures faults { CountsFaults (OnErr result) (K.faults sink.old) (K.faults sink.new) }
{
    let answer = decode_frame(octets, &mut steps.decoding);
    put_answer(&answer, sink)?;
    match answer {
        Ok(_) => Ok(Outcome::done()),
        Err(_) => Ok(Outcome::refused()),
    }
}

/// The source failed behind these octets.
fn source_fault_behind(octets: &[u8]) -> Outcome
    ensures value { result ≡ record { status = 5; at = length octets.now } }
    ensures octets { IsOctets octets.now }
{
    Outcome::source_fault(octets.len() as u64)
}

/// Reads the whole input into the buffer, and answers it.
fn answer_input<S: Source, K: Sink, L: Ledger, J: Ledger>(
    buffer: &mut [u8],
    source: &mut S,
    sink: &mut K,
    steps: &mut RunSteps<L, J>,
) -> Outcome
    requires { length buffer.old ≡ FRAME_BUFFER }
    ensures run { StreamRun Frame (S.left source.old) (S.left source.new) (K.held sink.old) (K.held sink.new) steps.old steps.new result.status result.at }
    ensures faults { AreCounted result.status result.at (S.faults source.old) (S.faults source.new) (K.faults sink.old) (K.faults sink.new) }
{
    match fill(buffer, source) {
        Filled::Failed(count) => source_fault_behind(&buffer[..count]),
        Filled::Full => Outcome::malformed(MAX_FRAME as u64),
        Filled::Whole(count) => match answer_frame(&buffer[..count], sink, steps) {
            Ok(outcome) => outcome,
            Err(_) => Outcome::sink_fault(),
        },
    }
}

/// Reads the whole input, and answers it.
pub(crate) fn run_frame<S: Source, K: Sink, L: Ledger, J: Ledger>(
    alloc: Global,
    source: &mut S,
    sink: &mut K,
    steps: &mut RunSteps<L, J>,
) -> Outcome
    ensures { IsRight (run_of (Some Frame) (S.left source.old) (S.left source.new) (K.held sink.old) (K.held sink.new) (S.faults source.old) (S.faults source.new) (K.faults sink.old) (K.faults sink.new) steps.old steps.new result.status result.at) (source.new ≡ source.old) (sink.new ≡ sink.old) }
{
    match zeros(alloc, FRAME_BUFFER) {
        Ok(mut buffer) => answer_input(&mut buffer, source, sink, steps),
        Err(_) => Outcome::no_memory(),
    }
}
