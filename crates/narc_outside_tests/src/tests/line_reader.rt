//! Texts, line by line.
ghost use Rattle.std.specs.Prelude.{◌≤◌};

use narc_lines::{Behind, LineReader, NextLine};
use narc_world::{MemorySource, zeros};
use std::alloc::Global;
use std::test::Fail;

/// The most octets of a line in these tests, its line feed among them.
const LONGEST: usize = 6;

/// What a reader told of a text: its lines, each behind a bar, what came behind them, where, and how many octets were taken.
#[derive(Drop)]
struct Told {
    lines: Vec<u8>,
    last: Option<NextLine>,
    place: u64,
    taken: u64,
}

/// Reads a text by way of a buffer of so many octets, up to ten lines of it.
fn read(
    alloc: Global,
    size: usize,
    octets: &[u8],
    pieces: &[usize],
    failing: &[u64],
) -> Result<Told, Fail>
    requires { LONGEST ≤ size }
{
    let mut source = MemorySource::new(alloc, octets, pieces, failing)?;
    let mut reader = LineReader::new(zeros(alloc, size)?, LONGEST);
    let mut lines = Vec::new(alloc);
    let mut last = None;
    for _ in 0..10 {
        match reader.next(&mut source) {
            NextLine::Line => {
                lines.push(b'|')?;
                lines.extend_from_slice(reader.line())?;
            }
            end => {
                last = Some(end);
                break;
            }
        }
    }
    Ok(Told {
        lines,
        last,
        place: reader.place(),
        taken: reader.taken(),
    })
}

#[test]
fn lines_come_whole_whatever_the_pieces_and_the_buffer(rt: HostRuntime) -> Result<(), Fail> {
    for size in LONGEST..15 {
        for piece in 1..15 {
            let told = read(rt.alloc(), size, b"one\n\nthree\nfou", &[piece; 14], &[])?;
            assert!(rt; told.lines.as_slice() == b"|one||three".as_slice());
            assert!(rt; told.last == Some(NextLine::Torn));
            assert_eq!(rt; (told.place, told.taken), (11, 14));
        }
    }
    Ok(())
}

#[test]
fn as_many_octets_as_a_line_may_have_and_no_line_feed_are_endless(
    rt: HostRuntime,
) -> Result<(), Fail> {
    for size in LONGEST..10 {
        let told = read(rt.alloc(), size, b"a\nsixsix\n", &[3, 1, 1, 1, 1, 1], &[])?;
        assert!(rt; told.lines.as_slice() == b"|a".as_slice());
        assert!(rt; told.last == Some(NextLine::Endless));
        assert_eq!(rt; told.place, 2);
    }
    Ok(())
}

#[test]
fn a_pull_that_fails_loses_no_line(rt: HostRuntime) -> Result<(), Fail> {
    for pull in 1..7 {
        let told = read(rt.alloc(), LONGEST, b"a\n\nb\n", &[1; 5], &[pull])?;
        let whole: &[u8] = match pull {
            1 | 2 => b"",
            3 => b"|a",
            4 | 5 => b"|a|",
            _ => b"|a||b",
        };
        assert!(rt; told.lines.as_slice() == whole);
        assert!(rt; told.last == Some(NextLine::ReadFault));
        assert_eq!(rt; told.taken, pull - 1);
    }
    Ok(())
}

#[test]
fn behind_the_last_line_is_the_end_or_an_octet(rt: HostRuntime) -> Result<(), Fail> {
    let mut source = MemorySource::new(rt.alloc(), b"a\nb\n", &[1, 1], &[5])?;
    let mut lines = LineReader::new(zeros(rt.alloc(), LONGEST)?, LONGEST);
    assert_eq!(rt; lines.next(&mut source), NextLine::Line);
    assert!(rt; !lines.is_ready());
    assert_eq!(rt; lines.behind(&mut source), Behind::More);
    assert!(rt; lines.is_ready());
    assert_eq!(rt; lines.next(&mut source), NextLine::Line);
    assert_eq!(rt; lines.behind(&mut source), Behind::End);
    assert_eq!(rt; lines.behind(&mut source), Behind::ReadFault);
    assert_eq!(rt; lines.next(&mut source), NextLine::End);
    Ok(())
}
