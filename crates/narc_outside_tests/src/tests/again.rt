//! Texts that are read and printed again.
ghost use Rattle.std.specs.Prelude.{◌≤◌, length};

use narc_bits::MAX_FRAME;
use narc_reading::read_packet;
use narc_text::put_packet;
use narc_world::MemorySink;
use std::alloc::Global;
use std::process::Abort;
use std::test::Fail;

/// More octets than the texts have that are printed again.
const MOST: usize = 1000;

/// Whether the line is the text of a packet.
pub(crate) fn is_read(alloc: Global, line: &[u8]) -> Result<bool, Fail> {
    let mut store = vec![in alloc; 0u8; MAX_FRAME]?;
    Ok(read_packet(line, store.as_mut_slice()).is_ok())
}

/// Whether the line is the text of a packet. Sees that it then is the text of the one that is read.
pub(crate) fn is_exact(
    rt: &impl Abort,
    alloc: Global,
    line: &[u8],
    store: &mut [u8],
) -> Result<bool, Fail>
    requires { MAX_FRAME ≤ length store.old }
{
    let Ok(packet) = read_packet(line, store) else {
        return Ok(false);
    };
    let mut sink = MemorySink::new(alloc, MOST, &[])?;
    put_packet(&packet, &mut sink)?;
    assert!(rt; sink.bytes() == line);
    Ok(true)
}
