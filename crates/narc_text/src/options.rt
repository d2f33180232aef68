//! The text of a header's options.
ghost use Rattle.std.specs.Prelude.{◌+◌, ◌++◌, codes, decimal, OnErr};
ghost use Rattle.narc_packet.specs.Options.{TcpOther, TcpSack, TcpTimes, ip_options_in, sack_blocks_in, tcp_options_in};
ghost use Rattle.narc_packet.specs.PacketView.{ip_option_view, tcp_option_view};
ghost use Rattle.narc_packet.specs.TextWords.{block_word, blocks_word, ip_option_word, tcp_option_word, ip_options_word, tcp_options_word};
ghost use Rattle.narc_world.specs.Outside.{CountsFaults};
ghost use Rattle.narc_text.specs.Printing.{IsPrinted};

use crate::page::Page;
use crate::words::{print_hex, print_word};
use narc_packet::{IpOption, IpOptions, SackBlock, SackBlocks, TcpOption, TcpOptions};
use narc_world::{Failed, Sink};

/// More octets than an option's text has before its data.
const FRONT: usize = 64;

/// The maximum segment size.
fn print_size<K: Sink>(size: u16, page: &mut Page, sink: &mut K) -> Result<(), Failed>
    ensures printed { IsPrinted result (codes "mss:" ++ decimal size) page.old page.new (K.held sink.old) (K.held sink.new) }
    ensures faults { CountsFaults (OnErr result) (K.faults sink.old) (K.faults sink.new) }
{
    page.make_room(FRONT, sink)?;
    page.put(b"mss:");
    page.put_short(size);
    Ok(())
}

/// By how many bits the window is shifted.
fn print_scale<K: Sink>(shift: u8, page: &mut Page, sink: &mut K) -> Result<(), Failed>
    ensures printed { IsPrinted result (codes "scale:" ++ decimal shift) page.old page.new (K.held sink.old) (K.held sink.new) }
    ensures faults { CountsFaults (OnErr result) (K.faults sink.old) (K.faults sink.new) }
{
    page.make_room(FRONT, sink)?;
    page.put(b"scale:");
    page.put_octet(shift);
    Ok(())
}

/// The sender's clock, and the clock that is echoed.
fn print_times<K: Sink>(value: u32, echo: u32, page: &mut Page, sink: &mut K) -> Result<(), Failed>
    ensures printed { IsPrinted result (tcp_option_word (TcpTimes value echo)) page.old page.new (K.held sink.old) (K.held sink.new) }
    ensures faults { CountsFaults (OnErr result) (K.faults sink.old) (K.faults sink.new) }
{
    page.make_room(FRONT, sink)?;
    page.put(b"ts:");
    page.put_number(u64::from(value));
    page.put(b":");
    page.put_number(u64::from(echo));
    Ok(())
}

/// The edges of a block.
fn print_block<K: Sink>(block: SackBlock, page: &mut Page, sink: &mut K) -> Result<(), Failed>
    ensures printed { IsPrinted result (block_word block) page.old page.new (K.held sink.old) (K.held sink.new) }
    ensures faults { CountsFaults (OnErr result) (K.faults sink.old) (K.faults sink.new) }
{
    page.make_room(FRONT, sink)?;
    page.put_number(u64::from(block.left));
    page.put(b"-");
    page.put_number(u64::from(block.right));
    Ok(())
}

/// The blocks of a selective acknowledgment, joined by slashes.
fn print_blocks<K: Sink>(
    blocks: SackBlocks<'_>,
    page: &mut Page,
    sink: &mut K,
) -> Result<(), Failed>
    ensures printed { IsPrinted result (blocks_word (sack_blocks_in blocks.entry.spelled.now)) page.old page.new (K.held sink.old) (K.held sink.new) }
    ensures faults { CountsFaults (OnErr result) (K.faults sink.old) (K.faults sink.new) }
{
    let mut blocks = blocks.iter();
    let Some(first) = blocks.next() else {
        return Ok(());
    };
    print_block(first, page, sink)?;
    for block in blocks {
        print_word(page, b"/", sink)?;
        print_block(block, page, sink)?;
    }
    Ok(())
}

/// Selective acknowledgment.
fn print_sack<K: Sink>(blocks: SackBlocks<'_>, page: &mut Page, sink: &mut K) -> Result<(), Failed>
    ensures printed { IsPrinted result (tcp_option_word (TcpSack (sack_blocks_in blocks.entry.spelled.now))) page.old page.new (K.held sink.old) (K.held sink.new) }
    ensures faults { CountsFaults (OnErr result) (K.faults sink.old) (K.faults sink.new) }
{
    print_word(page, b"sack:", sink)?;
    print_blocks(blocks, page, sink)
}

/// Any other option.
fn print_other<K: Sink>(
    kind: u8,
    octets: &[u8],
    page: &mut Page,
    sink: &mut K,
) -> Result<(), Failed>
    ensures printed { IsPrinted result (tcp_option_word (TcpOther kind octets.now)) page.old page.new (K.held sink.old) (K.held sink.new) }
    ensures faults { CountsFaults (OnErr result) (K.faults sink.old) (K.faults sink.new) }
{
    page.make_room(FRONT, sink)?;
    page.put(b"opt:");
    page.put_octet(kind);
    page.put(b":");
    print_hex(page, octets, sink)
}

fn print_ip_option<K: Sink>(
    option: IpOption<'_>,
    page: &mut Page,
    sink: &mut K,
) -> Result<(), Failed>
    ensures printed { IsPrinted result (ip_option_word (ip_option_view option.entry)) page.old page.new (K.held sink.old) (K.held sink.new) }
    ensures faults { CountsFaults (OnErr result) (K.faults sink.old) (K.faults sink.new) }
{
    match option {
        IpOption::Nop => print_word(page, b"nop", sink),
        IpOption::Other { kind, data } => print_other(kind, data, page, sink),
    }
}

fn print_tcp_option<K: Sink>(
    option: TcpOption<'_>,
    page: &mut Page,
    sink: &mut K,
) -> Result<(), Failed>
    ensures printed { IsPrinted result (tcp_option_word (tcp_option_view option.entry)) page.old page.new (K.held sink.old) (K.held sink.new) }
    ensures faults { CountsFaults (OnErr result) (K.faults sink.old) (K.faults sink.new) }
{
    match option {
        TcpOption::Nop => print_word(page, b"nop", sink),
        TcpOption::Mss(size) => print_size(size, page, sink),
        TcpOption::Scale(shift) => print_scale(shift, page, sink),
        TcpOption::SackOk => print_word(page, b"sackok", sink),
        TcpOption::Sack(blocks) => print_sack(blocks, page, sink),
        TcpOption::Times { value, echo } => print_times(value, echo, page, sink),
        TcpOption::Other { kind, data } => print_other(kind, data, page, sink),
    }
}

/// The options of an IPv4 header, joined by commas, or `-` for none.
pub(crate) fn print_ip_options<K: Sink>(
    options: &IpOptions<'_>,
    page: &mut Page,
    sink: &mut K,
) -> Result<(), Failed>
    ensures printed { IsPrinted result (ip_options_word (ip_options_in options.now.spelled.now)) page.old page.new (K.held sink.old) (K.held sink.new) }
    ensures faults { CountsFaults (OnErr result) (K.faults sink.old) (K.faults sink.new) }
{
    let mut options = options.iter();
    let Some(first) = options.next() else {
        return print_word(page, b"-", sink);
    };
    print_ip_option(first, page, sink)?;
    for option in options {
        print_word(page, b",", sink)?;
        print_ip_option(option, page, sink)?;
    }
    Ok(())
}

/// The options of a TCP header, joined by commas, or `-` for none.
pub(crate) fn print_tcp_options<K: Sink>(
    options: &TcpOptions<'_>,
    page: &mut Page,
    sink: &mut K,
) -> Result<(), Failed>
    ensures printed { IsPrinted result (tcp_options_word (tcp_options_in options.now.spelled.now)) page.old page.new (K.held sink.old) (K.held sink.new) }
    ensures faults { CountsFaults (OnErr result) (K.faults sink.old) (K.faults sink.new) }
{
    let mut options = options.iter();
    let Some(first) = options.next() else {
        return print_word(page, b"-", sink);
    };
    print_tcp_option(first, page, sink)?;
    for option in options {
        print_word(page, b",", sink)?;
        print_tcp_option(option, page, sink)?;
    }
    Ok(())
}
