//! A reader that fails in mid-stream.
use narc_world::{Pulled, Source, StdSource};
use std::io::{self, Read};

/// Gives two octets, fails, gives one more and ends.
#[derive(Drop)]
struct FailingReader {
    reads: u8,
}

impl Read for FailingReader {
    fn read(&mut self, buf: &mut [u8]) -> io::Result<usize> {
        self.reads = self.reads.saturating_add(1);
        let octets: &[u8] = match self.reads {
            1 => &[1, 2],
            2 => return Err(io::Error::other("the line broke")),
            3 => &[3],
            _ => &[],
        };
        let count = octets.len().min(buf.len());
        buf[..count].copy_from_slice(&octets[..count]);
        Ok(count)
    }
}

#[test]
fn a_reader_that_fails_in_mid_stream_is_a_fault_and_the_next_pull_goes_on(rt: HostRuntime) {
    let mut source = StdSource::new(FailingReader { reads: 0 });
    let mut into = [0; 8];
    assert_eq!(rt; source.pull(&mut into), Pulled::Got(2));
    assert!(rt; into.starts_with(&[1, 2]));
    assert_eq!(rt; source.pull(&mut into), Pulled::Failed);
    assert_eq!(rt; source.pull(&mut into), Pulled::Got(1));
    assert!(rt; into.starts_with(&[3]));
    assert_eq!(rt; source.pull(&mut into), Pulled::End);
}
