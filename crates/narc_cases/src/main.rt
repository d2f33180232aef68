//! Runs each case of a list as the command does, and tells whether its output and its status are the listed ones.
#![tactic(auto)]

use anyhow::Result;
use narc_run::run_counted;
use narc_world::{MemorySink, StdSource, Words};
use std::alloc::Global;
use std::fs;
use std::marker::Brand;
use std::rt::Files;
use std::sync::ledger::Blank;

/// The most octets that a case may write.
const CAPACITY: usize = 1_000_000;

/// A line of the list: the input's file, the status, the file of the output, and the words of the command.
#[derive(Clone, Copy)]
struct Case<'a> {
    input: &'a str,
    status: &'a str,
    output: &'a str,
    words: &'a str,
}

impl<'a> Case<'a> {
    /// The case of a line.
    fn of(line: &'a str) -> Option<Case<'a>> {
        let (input, rest) = line.split_once(' ')?;
        let (status, rest) = rest.split_once(' ')?;
        let (output, words) = rest.split_once(' ')?;
        Some(Case {
            input,
            status,
            output,
            words,
        })
    }
}

fn words_of(alloc: Global, line: &str) -> Result<Words> {
    let mut words = Words::new(alloc);
    for word in line.split(' ') {
        words.add(word)?;
    }
    Ok(words)
}

/// Whether the command ends with the status of the case, and writes its output.
fn is_as_listed<R: Files + AllocGlobal>(rt: &R, case: &Case<'_>) -> Result<bool> {
    let words = words_of(rt.alloc(), case.words)?;
    let mut source = StdSource::new(fs::open(rt, case.input)?);
    let mut sink = MemorySink::new(rt.alloc(), CAPACITY, &[])?;
    let outcome = run_counted::<_, _, Brand, Brand>(
        rt.alloc(),
        &words,
        &mut source,
        &mut sink,
        Blank::new(1),
        Blank::new(1),
    );
    let output = fs::read(rt, case.output)?;
    let status: u8 = case.status.parse()?;
    Ok(outcome.status == status && sink.bytes() == output.as_slice())
}

fn main(rt: HostRuntime) -> Result<()> {
    let list = fs::read_to_string(&rt, "TESTLIST")?;
    for line in list.as_str().lines() {
        let Some(case) = Case::of(line) else {
            println!(rt; "no case: {line}")?;
            continue;
        };
        let told = if is_as_listed(&rt, &case)? {
            "ok"
        } else {
            "differs"
        };
        println!(rt; "{told} {} {}", case.input, case.words)?;
    }
    Ok(())
}
