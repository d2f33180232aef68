//! Texts of which a bit is turned.
use narc_doubles::{TEXT, TEXT_CAPTURE, World, end_of};
use std::test::Fail;

/// Where the line with this octet of the text begins, and what is made of the lines before it.
fn line_of(place: usize) -> (u64, &'static [u8]) {
    match place {
        0..17 => (0, b""),
        17..108 => (17, &TEXT_CAPTURE[..24]),
        _ => (108, TEXT_CAPTURE),
    }
}

/// How many bits make a digit of a number or of an address another one.
const ACCEPTED: usize = 240;

/// A text is refused at the line whose bit was turned, or it is the text of its own capture.
#[test]
fn each_bit_of_a_text_is_told_again_or_refused_at_its_line(rt: HostRuntime) -> Result<(), Fail> {
    let mut told = 0usize;
    for place in 0..120 {
        for bit in [1, 2, 4, 8, 16, 32, 64, 128] {
            let mut text = *TEXT;
            text[place] ^= bit;
            let ended = end_of(rt.alloc(), &["build"], World::of(&text))?;
            if ended.outcome.status == 0 {
                let shown = end_of(rt.alloc(), &["show"], World::of(ended.written.bytes()))?;
                assert!(rt; bit < 16 && shown.is(0, 0, &text));
                told = told.saturating_add(1);
            } else {
                let (at, made) = line_of(place);
                assert!(rt; ended.is(3, at, made));
            }
        }
    }
    assert!(rt; told == ACCEPTED);
    Ok(())
}
