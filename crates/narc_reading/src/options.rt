//! The options of a header, read.
ghost use Rattle.std.specs.Prelude.{◌≡◌, ◌≤◌, OnOk, OnErr, IfOk, codes, length};
ghost use Rattle.narc_packet.specs.Options.{ip_option, tcp_option, IsIpOption, IsTcpOption, AreIpOptions, AreTcpOptions, AreSackBlocks, IsSackBlock, ip_options_in, sack_blocks_in, tcp_options_in};
ghost use Rattle.narc_packet.specs.PacketView.{ip_option_view, tcp_option_view};
ghost use Rattle.narc_packet.specs.TextWords.{block_word, blocks_word, ip_option_word, tcp_option_word, ip_options_word, tcp_options_word};
ghost use Rattle.narc_reading.specs.OptionParts.{IsNamed, option_rest};
ghost use Rattle.narc_reading.specs.Reading.{IsRead, IsReadBy, IsTextOption, as_tcp, IsOptionPushed, IsNoOption, FitIpArea, FitTcpArea};

use crate::decimal::read_decimal;
use crate::error::BadLine;
use crate::parts::{Parts, Separator, is_word, split_at_separator};
use narc_bits::known_octets;
use narc_packet::{
    IpOption, IpOptionList, IpOptions, MAX_AREA, MAX_BLOCKS, SackBlock, SackBlockList, SackBlocks,
    TcpOption, TcpOptionList, TcpOptions,
};

/// The edges of a block, joined by a dash.
fn read_block(word: &[u8]) -> Result<SackBlock, BadLine>
    ensures { IsRead block_word IsSackBlock word.now result }
{
    let Some((left, right)) = split_at_separator(word, b'-') else {
        return Err(BadLine);
    };
    let left = read_decimal(left, 1 << 32)?;
    let right = read_decimal(right, 1 << 32)?;
    Ok(SackBlock {
        left: left as u32,
        right: right as u32,
    })
}

/// One to four blocks, joined by slashes. They are spelled into the front of the room.
fn read_blocks<'r>(word: &[u8], room: &'r mut [u8]) -> Result<SackBlocks<'r>, BadLine>
    requires { length room.old ≡ MAX_AREA }
    ensures { IsReadBy (λ blocks. sack_blocks_in blocks.spelled.now) blocks_word AreSackBlocks word.now result }
{
    let mut blocks = SackBlockList::new();
    let mut count = 0;
    let mut words = Parts::of(word, Separator::Slash);
    while let Ok(next) = words.next() {
        if count == MAX_BLOCKS {
            return Err(BadLine);
        }
        blocks.push(read_block(next)?);
        count += 1;
    }
    let spelled = blocks.as_blocks().spelled;
    known_octets(spelled);
    let front = &mut room[..spelled.len()];
    front.copy_from_slice(spelled);
    Ok(SackBlocks { spelled: front })
}

/// What stands behind `opt`.
fn read_other<'r>(parts: &mut Parts<'_>, room: &'r mut [u8]) -> Result<TcpOption<'r>, BadLine>
    requires { length room.old ≡ MAX_AREA }
    ensures { IsReadBy tcp_option_view option_rest (IsNamed (codes "opt")) parts.old result }
{
    let kind = parts.octet()?;
    let data = parts.last_hex(room)?;
    Ok(TcpOption::Other { kind, data })
}

/// What stands behind `mss`.
fn read_size<'r>(parts: &mut Parts<'_>) -> Result<TcpOption<'r>, BadLine>
    ensures { IsReadBy tcp_option_view option_rest (IsNamed (codes "mss")) parts.old result }
{
    let size = parts.short()?;
    parts.end()?;
    Ok(TcpOption::Mss(size))
}

/// What stands behind `scale`.
fn read_scale<'r>(parts: &mut Parts<'_>) -> Result<TcpOption<'r>, BadLine>
    ensures { IsReadBy tcp_option_view option_rest (IsNamed (codes "scale")) parts.old result }
{
    let shift = parts.octet()?;
    parts.end()?;
    Ok(TcpOption::Scale(shift))
}

/// What stands behind `ts`.
fn read_times<'r>(parts: &mut Parts<'_>) -> Result<TcpOption<'r>, BadLine>
    ensures { IsReadBy tcp_option_view option_rest (IsNamed (codes "ts")) parts.old result }
{
    let value = parts.long()?;
    let echo = parts.long()?;
    parts.end()?;
    Ok(TcpOption::Times { value, echo })
}

/// What stands behind `sack`.
fn read_sack<'r>(parts: &mut Parts<'_>, room: &'r mut [u8]) -> Result<TcpOption<'r>, BadLine>
    requires { length room.old ≡ MAX_AREA }
    ensures { IsReadBy tcp_option_view option_rest (IsNamed (codes "sack")) parts.old result }
{
    let blocks = read_blocks(parts.next()?, room)?;
    parts.end()?;
    Ok(TcpOption::Sack(blocks))
}

/// What stands behind `sackok`.
fn read_permitted<'r>(parts: &Parts<'_>) -> Result<TcpOption<'r>, BadLine>
    ensures { IsReadBy tcp_option_view option_rest (IsNamed (codes "sackok")) parts.now result }
{
    parts.end()?;
    Ok(TcpOption::SackOk)
}

/// What stands behind `nop`.
fn read_nop<'r>(parts: &Parts<'_>) -> Result<TcpOption<'r>, BadLine>
    ensures { IsReadBy tcp_option_view option_rest (IsNamed (codes "nop")) parts.now result }
{
    parts.end()?;
    Ok(TcpOption::Nop)
}

/// An option, of which any data lies in the room.
fn read_option<'r>(word: &[u8], room: &'r mut [u8]) -> Result<TcpOption<'r>, BadLine>
    requires { length room.old ≡ MAX_AREA }
    ensures { IsReadBy tcp_option_view tcp_option_word IsTextOption word.now result }
{
    let mut parts = Parts::of(word, Separator::Colon);
    let name = parts.next()?;
    if is_word(name, b"nop") {
        return read_nop(&parts);
    }
    if is_word(name, b"ts") {
        return read_times(&mut parts);
    }
    if is_word(name, b"sack") {
        return read_sack(&mut parts, room);
    }
    if is_word(name, b"mss") {
        return read_size(&mut parts);
    }
    if is_word(name, b"sackok") {
        return read_permitted(&parts);
    }
    if is_word(name, b"scale") {
        return read_scale(&mut parts);
    }
    if is_word(name, b"opt") {
        return read_other(&mut parts, room);
    }
    Err(BadLine)
}

/// The option of IPv4 with the same word; none for an option that only TCP has.
fn as_ip_option(option: TcpOption<'_>) -> Result<IpOption<'_>, BadLine>
    ensures { IsReadBy ip_option_view as_tcp (λ option. Unit {0}) (tcp_option_view option.entry) result }
{
    match option {
        TcpOption::Nop => Ok(IpOption::Nop),
        TcpOption::Other { kind, data } => Ok(IpOption::Other { kind, data }),
        _ => Err(BadLine),
    }
}

/// Appends the option of TCP that the word is.
fn push_tcp_option(options: &mut TcpOptionList, word: &[u8]) -> Result<(), BadLine>
    ensures ok { OnOk result (IsOptionPushed tcp_option_word tcp_option IsTcpOption word.now options.old options.new) }
    ensures err { OnErr result (IsNoOption tcp_option_word tcp_option IsTcpOption word.now options.old) }
{
    let mut room = [0; MAX_AREA];
    let option = read_option(word, &mut room)?;
    if options.push(option).is_ok() {
        Ok(())
    } else {
        Err(BadLine)
    }
}

/// Appends the option of IPv4 that the word is.
fn push_ip_option(options: &mut IpOptionList, word: &[u8]) -> Result<(), BadLine>
    ensures ok { OnOk result (IsOptionPushed ip_option_word ip_option IsIpOption word.now options.old options.new) }
    ensures err { OnErr result (IsNoOption ip_option_word ip_option IsIpOption word.now options.old) }
{
    let mut room = [0; MAX_AREA];
    let option = as_ip_option(read_option(word, &mut room)?)?;
    if options.push(option).is_ok() {
        Ok(())
    } else {
        Err(BadLine)
    }
}

/// The options of a TCP header, joined by commas, or `-` for none. They are spelled into the front of the room.
pub(crate) fn read_tcp_options<'r>(
    word: &[u8],
    room: &'r mut [u8],
) -> Result<TcpOptions<'r>, BadLine>
    requires { MAX_AREA ≤ length room.old }
    ensures read { IsReadBy (λ options. tcp_options_in options.spelled.now) tcp_options_word FitTcpArea word.now result }
    ensures spelled { IfOk result (λ options. AreTcpOptions options.spelled.now) }
{
    if is_word(word, b"-") {
        return Ok(TcpOptions::none());
    }
    let mut options = TcpOptionList::new();
    let mut words = Parts::of(word, Separator::Comma);
    while let Ok(next) = words.next() {
        push_tcp_option(&mut options, next)?;
    }
    let spelled = options.as_options().spelled;
    let front = &mut room[..spelled.len()];
    front.copy_from_slice(spelled);
    Ok(TcpOptions { spelled: front })
}

/// The options of an IPv4 header, joined by commas, or `-` for none. They are spelled into the front of the room.
pub(crate) fn read_ip_options<'r>(word: &[u8], room: &'r mut [u8]) -> Result<IpOptions<'r>, BadLine>
    requires { MAX_AREA ≤ length room.old }
    ensures read { IsReadBy (λ options. ip_options_in options.spelled.now) ip_options_word FitIpArea word.now result }
    ensures spelled { IfOk result (λ options. AreIpOptions options.spelled.now) }
{
    if is_word(word, b"-") {
        return Ok(IpOptions::none());
    }
    let mut options = IpOptionList::new();
    let mut words = Parts::of(word, Separator::Comma);
    while let Ok(next) = words.next() {
        push_ip_option(&mut options, next)?;
    }
    let spelled = options.as_options().spelled;
    let front = &mut room[..spelled.len()];
    front.copy_from_slice(spelled);
    Ok(IpOptions { spelled: front })
}
