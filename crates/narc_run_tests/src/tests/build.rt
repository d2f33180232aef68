//! Captures made of their texts.
use crate::tests::expect_end;
use narc_doubles::{TEXT, TEXT_CAPTURE, World, end_of};
use std::alloc::{AllocError, Global};
use std::test::Fail;

/// Where the second line begins, and where the last does.
const RECORD_AT: usize = 17;

const END_AT: usize = 108;

#[test]
fn a_capture_is_made_of_its_text_in_pieces_of_any_size(rt: HostRuntime) -> Result<(), Fail> {
    for pieces in [&[].as_slice(), &[1; 120].as_slice()] {
        let world = World {
            pieces,
            ..World::of(TEXT)
        };
        expect_end(
            &rt,
            &end_of(rt.alloc(), &["build"], world)?,
            0,
            0,
            TEXT_CAPTURE,
        );
    }
    Ok(())
}

/// A line that does not fit is refused at its place, and what is made of those before is kept.
#[test]
fn a_line_that_does_not_fit_loses_nothing_of_those_before(rt: HostRuntime) -> Result<(), Fail> {
    let lines: [(&[u8], u64); 10] = [
        (b"end 2 2 0 0\n", 108),
        (b"end 1 1 0 1\n", 108),
        (b"end 1 1 0 0\r\n", 108),
        (b"end  1 1 0 0\n", 108),
        (b"torn 98\n", 108),
        (b"rec 3 0 snapped 20 60\n", 108),
        (
            b"rec 3 0 ok eth 0200000000aa 0200000000bb other 2054 00\n",
            108,
        ),
        (
            b"rec 03 0 ok eth 0200000000aa 0200000000bb other 34997 00\n",
            108,
        ),
        (
            b"rec 3 0 ok eth 0200000000AA 0200000000bb other 34997 00\n",
            108,
        ),
        (b"end 1 1 0 0\nx", 120),
    ];
    for (line, at) in lines {
        let mut text = TEXT[..END_AT].to_vec(rt.alloc())?;
        text.extend_from_slice(line)?;
        let told = end_of(rt.alloc(), &["build"], World::of(&text))?;
        expect_end(&rt, &told, 3, at, TEXT_CAPTURE);
    }
    Ok(())
}

/// A text of one record, whose line has 71 octets and so many digits before its line feed.
fn text_with(alloc: Global, digits: usize) -> Result<Vec<u8>, AllocError> {
    let mut text = TEXT[..RECORD_AT].to_vec(alloc)?;
    text.extend_from_slice(
        b"rec 4294967295 4294967295 ok eth 0200000000aa 0200000000bb other 34997 ",
    )?;
    text.extend_from_slice(&vec![in alloc; b'0'; digits]?)?;
    text.extend_from_slice(b"\nend 1 1 0 0\n")?;
    Ok(text)
}

#[test]
fn the_longest_line_has_524_331_octets(rt: HostRuntime) -> Result<(), Fail> {
    let longest = text_with(rt.alloc(), 524_260)?;
    assert_eq!(rt; longest.len(), 17 + 524_331 + 1 + 12);
    let told = end_of(rt.alloc(), &["build"], World::of(&longest))?;
    assert_eq!(rt; (told.outcome.status, told.outcome.at), (0, 0));
    assert_eq!(rt; told.written.bytes().len(), 24 + 16 + 262_144);
    for digits in [524_261, 524_262] {
        let longer = text_with(rt.alloc(), digits)?;
        let told = end_of(rt.alloc(), &["build"], World::of(&longer))?;
        expect_end(&rt, &told, 3, 17, &TEXT_CAPTURE[..24]);
    }
    Ok(())
}
