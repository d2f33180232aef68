//! Tables over frames, captures, texts and jobs.
mod captures;
mod frames;
mod jobs;
mod texts;

use narc_doubles::{World, end_of};
use std::alloc::Global;
use std::process::Abort;
use std::test::Fail;

/// A row of a table: from which number on it holds, and what is written.
type Row = (usize, &'static [u8]);

/// What the last row says that holds for the number.
fn row_of(rows: &[Row], number: usize) -> &'static [u8] {
    let mut told: &'static [u8] = b"";
    for (from, line) in rows {
        if *from <= number {
            told = line;
        }
    }
    told
}

/// The answer to a frame begins so, and its status is that of the answer.
fn expect_answer(rt: &impl Abort, alloc: Global, frame: &[u8], front: &[u8]) -> Result<(), Fail> {
    let ended = end_of(alloc, &["frame"], World::of(frame))?;
    let status = if front.starts_with(b"ok ") { 0 } else { 1 };
    assert!(rt; !front.is_empty() && ended.written.bytes().starts_with(front));
    assert!(rt; ended.outcome.status == status && ended.outcome.at == 0);
    Ok(())
}
