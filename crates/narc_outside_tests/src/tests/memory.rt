//! Sources and sinks in memory, the words, and the room.
use narc_world::{FRAME_BUFFER, MemorySink, MemorySource, Pulled, Sink, Source, Words, zeros};
use std::test::Fail;

#[test]
fn octets_come_in_pieces_and_a_piece_of_none_is_one(rt: HostRuntime) -> Result<(), Fail> {
    let mut source = MemorySource::new(rt.alloc(), &[1, 2, 3, 4, 5, 6, 7], &[2, 0, 9], &[])?;
    let mut into = [0; 3];
    assert_eq!(rt; source.pull(&mut into), Pulled::Got(2));
    assert!(rt; into.starts_with(&[1, 2]));
    assert_eq!(rt; source.pull(&mut into), Pulled::Got(1));
    assert!(rt; into.starts_with(&[3]));
    assert_eq!(rt;
        source.pull(&mut into),
        Pulled::Got(3),
        "no more than the slice"
    );
    assert_eq!(rt; into, [4, 5, 6]);
    assert_eq!(rt;
        source.pull(&mut into),
        Pulled::Got(1),
        "no bound behind the pieces"
    );
    assert!(rt; into.starts_with(&[7]));
    assert_eq!(rt; source.pull(&mut into), Pulled::End);
    assert_eq!(rt; source.pull(&mut into), Pulled::End, "an end stays");
    Ok(())
}

#[test]
fn a_pull_that_fails_takes_nothing_and_the_next_goes_on(rt: HostRuntime) -> Result<(), Fail> {
    let mut source = MemorySource::new(rt.alloc(), &[1, 2, 3], &[9, 1], &[1, 3])?;
    let mut into = [0; 8];
    assert_eq!(rt; source.pull(&mut into), Pulled::Failed);
    assert_eq!(rt;
        source.pull(&mut into),
        Pulled::Got(1),
        "the failed call was the first"
    );
    assert!(rt; into.starts_with(&[1]));
    assert_eq!(rt; source.pull(&mut into), Pulled::Failed);
    assert_eq!(rt; source.pull(&mut into), Pulled::Got(2));
    assert!(rt; into.starts_with(&[2, 3]));
    assert_eq!(rt; source.pull(&mut into), Pulled::End);
    Ok(())
}

#[test]
fn a_push_that_fails_appends_half_and_the_next_goes_on(rt: HostRuntime) -> Result<(), Fail> {
    let mut sink = MemorySink::new(rt.alloc(), 8, &[2])?;
    assert!(rt; sink.push(&[1, 2]).is_ok());
    assert!(rt; sink.push(&[3, 4, 5]).is_err());
    assert_eq!(rt; sink.bytes(), [1, 2, 3].as_slice());
    assert!(rt; sink.push(&[6]).is_ok());
    assert_eq!(rt; sink.bytes(), [1, 2, 3, 6].as_slice());
    Ok(())
}

#[test]
fn a_full_sink_appends_what_fits_and_fails(rt: HostRuntime) -> Result<(), Fail> {
    let mut sink = MemorySink::new(rt.alloc(), 3, &[4])?;
    assert!(rt; sink.push(&[1, 2]).is_ok());
    assert!(rt; sink.push(&[3, 4]).is_err());
    assert_eq!(rt; sink.bytes(), [1, 2, 3].as_slice());
    assert!(rt; sink.push(&[]).is_ok(), "nothing always fits");
    assert!(rt;
        sink.push(&[5, 6]).is_err(),
        "half of it does not fit either"
    );
    assert_eq!(rt; sink.bytes(), [1, 2, 3].as_slice());
    Ok(())
}

#[test]
fn words_keep_their_order(rt: HostRuntime) -> Result<(), Fail> {
    let mut words = Words::new(rt.alloc());
    for word in ["trial", "", "7"] {
        words.add(word)?;
    }
    assert_eq!(rt; words.len(), 3);
    assert_eq!(rt; words.word(0), "trial");
    assert_eq!(rt; words.word(1), "");
    assert_eq!(rt; words.word(2), "7");
    Ok(())
}

#[test]
fn a_buffer_has_so_many_zeros(rt: HostRuntime) -> Result<(), Fail> {
    let frame = zeros(rt.alloc(), FRAME_BUFFER)?;
    assert_eq!(rt; frame.len(), 262_144 + 1);
    assert!(rt; frame.iter().all(|octet| *octet == 0));
    Ok(())
}
