//! A record of a capture: its answer, and its line.
ghost use Rattle.std.specs.Prelude.{◌≡◌, ◌+◌, ◌≤◌, ◌++◌, length, IsTrue, IsFalse, IfSome, IfNone, OnErr};
ghost use Rattle.narc_world.specs.Outside.{CountsFaults};
ghost use Rattle.narc_pcap.specs.Capture.{is_snapped};
ghost use Rattle.narc_text.specs.CaptureText.{entry_front, snapped_line};
ghost use Rattle.narc_text.specs.Printing.{IsPrinted};
ghost use Rattle.narc_run.specs.EntryAnswer.{IsWritable, entry_answer};
ghost use Rattle.narc_run.specs.EntryJudgement.{IsEntryJudgement};
ghost use Rattle.narc_run.specs.Findings.{IsEntryAnswer, entry_cost};
ghost use Rattle.narc_run.specs.Output.{show_answer};

use crate::frame::print_answer;
use crate::steps::RunSteps;
use narc_bits::MAX_FRAME;
use narc_packet::Packet;
use narc_pcap::Record;
use narc_stack::{Refusal, decode_frame, judge_frame};
use narc_text::{LINE, PAGE_SIZE, Page, put_decimal};
use narc_world::{Failed, Sink};
use std::sync::ledger::Ledger;

/// The answer for the frame of a record; none where the capture shortened it.
pub(crate) type Answered<'a> = Option<Result<Packet<'a>, Refusal>>;

/// The same without the packet.
pub(crate) type Judged = Option<Result<(), Refusal>>;

/// The frame of a record, of which these octets follow its header; none where the capture shortened it.
fn whole_frame<'a>(head: &Record, octets: &'a [u8]) -> Option<&'a [u8]>
    ensures snapped { IfNone result (IsTrue (is_snapped head.now)) }
    ensures whole { IfSome result (λ frame. IsFalse (is_snapped head.now) × (frame.now ≡ octets.now)) }
{
    if head.captured < head.original {
        None
    } else {
        Some(octets)
    }
}

/// The answer for a record with this frame.
pub(crate) fn answer_record<'a, L: Ledger, J: Ledger>(
    head: &Record,
    octets: &'a [u8],
    steps: &mut RunSteps<L, J>,
) -> Answered<'a>
    requires { length octets.now ≤ MAX_FRAME }
    ensures answer { IsEntryAnswer (record { head = head.now; octets = octets.now }) (entry_answer result) }
    ensures writable { IsWritable result }
    ensures cost { steps.new ≤ steps.old + entry_cost (record { head = head.now; octets = octets.now }) }
{
    let frame = whole_frame(head, octets)?;
    Some(decode_frame(frame, &mut steps.decoding))
}

/// The judgement of a record with this frame.
pub(crate) fn judge_record<L: Ledger, J: Ledger>(
    head: &Record,
    octets: &[u8],
    steps: &mut RunSteps<L, J>,
) -> Judged
    requires { length octets.now ≤ MAX_FRAME }
    ensures judged { IsEntryJudgement (record { head = head.now; octets = octets.now }) result }
    ensures cost { steps.new ≤ steps.old + entry_cost (record { head = head.now; octets = octets.now }) }
{
    let frame = whole_frame(head, octets)?;
    Some(judge_frame(frame, &mut steps.judging))
}

/// The line of a snapped record, behind its front.
fn print_snapped<K: Sink>(head: &Record, page: &mut Page, sink: &mut K) -> Result<(), Failed>
    ensures printed { IsPrinted result (snapped_line head.now.captured head.now.original) page.old page.new (K.held sink.old) (K.held sink.new) }
    ensures faults { CountsFaults (OnErr result) (K.faults sink.old) (K.faults sink.new) }
{
    page.make_room(LINE, sink)?;
    page.put(b"snapped ");
    put_decimal(page, u64::from(head.captured));
    page.put(b" ");
    put_decimal(page, u64::from(head.original));
    page.put(b"\n");
    Ok(())
}

/// The front of a record's line.
fn put_front(head: &Record, page: &mut Page)
    requires { length page.old + LINE ≤ PAGE_SIZE }
    ensures { page.new ≡ page.old ++ entry_front head.now.sec head.now.sub }
{
    page.put(b"rec ");
    put_decimal(page, u64::from(head.sec));
    page.put(b" ");
    put_decimal(page, u64::from(head.sub));
    page.put(b" ");
}

/// What a record's line says of its frame.
fn print_told<K: Sink>(
    head: &Record,
    answer: &Answered<'_>,
    page: &mut Page,
    sink: &mut K,
) -> Result<(), Failed>
    ensures printed { IsPrinted result (show_answer head.now (entry_answer answer.now)) page.old page.new (K.held sink.old) (K.held sink.new) }
    ensures faults { CountsFaults (OnErr result) (K.faults sink.old) (K.faults sink.new) }
{
    match answer {
        None => print_snapped(head, page, sink),
        Some(answer) => print_answer(answer, page, sink),
    }
}

/// A record's line.
pub(crate) fn print_record<K: Sink>(
    head: &Record,
    answer: &Answered<'_>,
    page: &mut Page,
    sink: &mut K,
) -> Result<(), Failed>
    ensures printed { IsPrinted result (entry_front head.now.sec head.now.sub ++ show_answer head.now (entry_answer answer.now)) page.old page.new (K.held sink.old) (K.held sink.new) }
    ensures faults { CountsFaults (OnErr result) (K.faults sink.old) (K.faults sink.new) }
{
    page.make_room(LINE, sink)?;
    put_front(head, page);
    print_told(head, answer, page, sink)
}
