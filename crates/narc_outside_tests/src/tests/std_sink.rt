//! A writer that takes a few octets at a time, and fails.
use narc_world::{Sink, StdSink};
use std::io::{self, Write};
use std::test::Fail;

/// Takes two octets a call while there is room. Its fifth write and its second flush fail.
#[derive(Drop)]
struct FailingWriter {
    taken: Vec<u8>,
    room: usize,
    writes: u8,
    flushes: u8,
}

impl Write for FailingWriter {
    fn write(&mut self, buf: &[u8]) -> io::Result<usize> {
        self.writes = self.writes.saturating_add(1);
        if self.writes == 5 {
            return Err(io::Error::other("the line broke"));
        }
        let room = self.room.saturating_sub(self.taken.len());
        let count = buf.len().min(2).min(room);
        self.taken.extend_from_slice(&buf[..count])?;
        Ok(count)
    }

    fn flush(&mut self) -> io::Result<()> {
        self.flushes = self.flushes.saturating_add(1);
        if self.flushes == 2 {
            return Err(io::Error::other("the line broke"));
        }
        Ok(())
    }
}

#[test]
fn a_push_writes_all_and_flushes_and_fails_where_the_writer_does(
    rt: HostRuntime,
) -> Result<(), Fail> {
    let mut writer = FailingWriter {
        taken: Vec::new(rt.alloc()),
        room: 8,
        writes: 0,
        flushes: 0,
    };
    let mut sink = StdSink::new(&mut writer);
    assert!(rt; sink.push(&[1, 2, 3, 4, 5]).is_ok(), "in three writes");
    assert_eq!(rt; writer.flushes, 1);
    let mut sink = StdSink::new(&mut writer);
    assert!(rt; sink.push(&[6, 7, 8]).is_err(), "the fifth write fails");
    assert!(rt; sink.push(&[]).is_err(), "the second flush fails");
    assert!(rt; sink.push(&[8, 9]).is_err(), "there is room for one");
    assert!(rt; sink.push(&[]).is_ok());
    assert_eq!(rt;
        writer.taken.as_slice(),
        [1, 2, 3, 4, 5, 6, 7, 8].as_slice()
    );
    assert_eq!(rt; writer.flushes, 3);
    Ok(())
}
