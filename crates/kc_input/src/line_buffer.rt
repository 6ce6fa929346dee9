//! The unfinished line, and what each byte does to it.
ghost use Rattle.std.specs.Prelude.{◌≡◌, ◌<◌, ◌≤◌, ◌∷◌, ◌++◌, [], true, false, length, take, OnOk, OnErr, IfOk, IfErr, if◌then◌else◌, slice_index};
ghost use Rattle.std.specs.Str.Lines.{strip_carriage_return};
ghost use Rattle.kc_language.specs.Lines.{is_line_feed};
ghost use Rattle.kc_text.specs.PartsOfLines.{HoldsNoLineFeed};
ghost use Rattle.kc_language.specs.ConfigFile.{ArePlacesOf};
ghost use Rattle.kc_input.specs.PartsOfConfigFile.{line};
ghost use Rattle.kc_input.specs.Feeding.{Refuses, StopsBecause, FinishesStream, fed, ended};
ghost use Rattle.kc_text.specs.PartsOfText.{one_more};
ghost use Rattle.kc_input.specs.LineByLine.{line_at, after_line, warning_of, IsOpen, TakesFront, TakesPiece};
ghost use Rattle.kc_input.specs.ReaderView.{position_of};

use crate::fault::InputFault;
use crate::step::{NamedStream, read_line};
use crate::user_input::UserInput;
use bstr::ByteSlice;
use kc_text::without_carriage_return;
use std::alloc::AllocError;

/// The most bytes of a line.
pub(crate) const LONGEST_DOT_LINE: usize = 65535;

/// The number of the unfinished line, and its bytes so far.
#[derive(Drop)]
pub(crate) struct LineBuffer {
    pub number: u64,
    pub pending: Vec<u8>,
}

// The line's text, without a carriage return that belongs to the line end.
fn text_of(bytes: &[u8], ended: bool) -> &[u8]
    ensures { result.now ≡ (if ended then strip_carriage_return bytes.now else bytes.now) }
{
    if ended {
        without_carriage_return(bytes)
    } else {
        bytes
    }
}

// Reads the bytes as the line of this number, and moves on to the next number. Fails only if there is not enough
// memory; then it changes nothing.
fn read_numbered<'a>(
    stream: &NamedStream<'a>,
    number: &mut u64,
    bytes: &[u8],
    ended: bool,
    user: &mut UserInput<'a>,
    told: &mut Vec<u8>,
) -> Result<(), AllocError>
    requires { ArePlacesOf stream.now.tree.now user.old.places }
    ensures places { OnOk result (user.new ≡ after_line stream.now user.old (line stream.now.name.now number.old bytes.now ended)) }
    ensures warned { OnOk result (told.new.items ≡ told.old.items ++ warning_of stream.now user.old (line stream.now.name.now number.old bytes.now ended)) }
    ensures next { OnOk result (number.new ≡ one_more number.old) }
    ensures unchanged { OnErr result ((user.new ≡ user.old) × (number.new ≡ number.old) × (told.new.items ≡ told.old.items)) }
{
    let text = text_of(bytes, ended);
    read_line(stream, *number, text, user, told)?;
    *number = number.saturating_add(1);
    Ok(())
}

/// Reads the pending bytes as a line, and moves on to the next line. Fails only if there is not enough memory; then it
/// changes nothing.
pub(crate) fn end_line<'a>(
    stream: &NamedStream<'a>,
    line_buffer: &mut LineBuffer,
    ended: bool,
    user: &mut UserInput<'a>,
    told: &mut Vec<u8>,
) -> Result<(), AllocError>
    requires { ArePlacesOf stream.now.tree.now user.old.places }
    ensures places { OnOk result (user.new ≡ after_line stream.now user.old (line_at stream.now (position_of line_buffer.old) ended)) }
    ensures warned { OnOk result (told.new.items ≡ told.old.items ++ warning_of stream.now user.old (line_at stream.now (position_of line_buffer.old) ended)) }
    ensures next { OnOk result (position_of line_buffer.new ≡ record { number = one_more line_buffer.old.number; pending = [] }) }
    ensures unchanged { OnErr result ((user.new ≡ user.old) × (position_of line_buffer.new ≡ position_of line_buffer.old) × (told.new.items ≡ told.old.items)) }
{
    read_numbered(
        stream,
        &mut line_buffer.number,
        &line_buffer.pending,
        ended,
        user,
        told,
    )?;
    line_buffer.pending.clear();
    Ok(())
}

// Takes one byte: an LF finishes the line, any other byte becomes pending, unless it is the 65,536th of its line.
fn take_byte<'a>(
    stream: &NamedStream<'a>,
    line_buffer: &mut LineBuffer,
    byte: u8,
    user: &mut UserInput<'a>,
    told: &mut Vec<u8>,
) -> Result<(), InputFault>
    requires { IsOpen stream.now (position_of line_buffer.old) user.old }
    ensures ok { OnOk result (TakesPiece stream.now (byte ∷ []) (position_of line_buffer.old) (position_of line_buffer.new) user.old user.new told.old.items told.new.items) }
    ensures position { OnOk result (position_of line_buffer.new ≡ fed (byte ∷ []) (position_of line_buffer.old)) }
    ensures unchanged { OnErr result ((user.new ≡ user.old) × (position_of line_buffer.new ≡ position_of line_buffer.old) × (told.new.items ≡ told.old.items)) }
    ensures err { IfErr result (λ fault. StopsBecause stream.now.tree.now stream.now.prefix.now stream.now.name.now fault (byte ∷ []) (position_of line_buffer.old) user.old) }
    ensures opened { OnOk result (IsOpen stream.now (position_of line_buffer.new) user.new) }
{
    if byte == b'\n' {
        end_line(stream, line_buffer, true, user, told)?;
        return Ok(());
    }
    if line_buffer.pending.len() >= LONGEST_DOT_LINE {
        return Err(InputFault::InputLineTooLong(line_buffer.number));
    }
    line_buffer.pending.push(byte)?;
    Ok(())
}

// Counts the bytes before the first LF, at most `room`. Reads no byte after that.
fn bytes_before_lf(bytes: &[u8], room: usize) -> usize
    ensures within { result ≤ length bytes.now }
    ensures few { result ≤ room }
    ensures none { HoldsNoLineFeed (take result bytes.now) }
    ensures first { result < room → result < length bytes.now → is_line_feed (slice_index bytes.now result) ≡ true }
{
    let front = &bytes[..room.min(bytes.len())];
    match front.find_byte(b'\n') {
        Some(n) => n,
        None => front.len(),
    }
}

// Takes a prefix of the bytes, and returns its length. If nothing is pending and the bytes start with a whole line,
// takes that with its LF, and reads it without a copy. Otherwise takes the bytes before the next LF, as many as the
// line has room for, or one byte if there are none.
fn take_front<'a>(
    stream: &NamedStream<'a>,
    line_buffer: &mut LineBuffer,
    bytes: &[u8],
    user: &mut UserInput<'a>,
    told: &mut Vec<u8>,
) -> Result<usize, InputFault>
    requires some { 0 < length bytes.now }
    requires opened { IsOpen stream.now (position_of line_buffer.old) user.old }
    ensures taken { IfOk result (λ n. TakesFront stream.now bytes.now n (position_of line_buffer.old) (position_of line_buffer.new) user.old user.new told.old.items told.new.items) }
    ensures unchanged { OnErr result ((user.new ≡ user.old) × (position_of line_buffer.new ≡ position_of line_buffer.old) × (told.new.items ≡ told.old.items)) }
    ensures err { IfErr result (λ fault. StopsBecause stream.now.tree.now stream.now.prefix.now stream.now.name.now fault bytes.now (position_of line_buffer.old) user.old) }
    ensures opened { OnOk result (IsOpen stream.now (position_of line_buffer.new) user.new) }
{
    let count = bytes_before_lf(bytes, LONGEST_DOT_LINE - line_buffer.pending.len());
    if line_buffer.pending.is_empty() && count < bytes.len() && bytes[count] == b'\n' {
        let whole = &bytes[..count];
        read_numbered(stream, &mut line_buffer.number, whole, true, user, told)?;
        return Ok(count + 1);
    }
    if count > 0 {
        line_buffer.pending.extend_from_slice(&bytes[..count])?;
        return Ok(count);
    }
    take_byte(stream, line_buffer, bytes[0], user, told)?;
    Ok(1)
}

/// Takes the chunk `piece`.
pub(crate) fn take_piece<'a>(
    stream: &NamedStream<'a>,
    line_buffer: &mut LineBuffer,
    piece: &[u8],
    user: &mut UserInput<'a>,
    told: &mut Vec<u8>,
) -> Result<(), InputFault>
    requires { IsOpen stream.now (position_of line_buffer.old) user.old }
    ensures ok { OnOk result (TakesPiece stream.now piece.now (position_of line_buffer.old) (position_of line_buffer.new) user.old user.new told.old.items told.new.items) }
    ensures position { OnOk result (position_of line_buffer.new ≡ fed piece.now (position_of line_buffer.old)) }
    ensures err { IfErr result (λ fault. Refuses stream.now.tree.now stream.now.prefix.now stream.now.name.now fault piece.now (position_of line_buffer.old)
        (position_of line_buffer.new) user.old user.new told.old.items told.new.items) }
    ensures opened { IsOpen stream.now (position_of line_buffer.new) user.new }
{
    let mut at = 0;
    while at < piece.len() {
        at += take_front(stream, line_buffer, &piece[at..], user, told)?;
    }
    Ok(())
}

/// Ends the input file: pending bytes are its last line. Fails only if there is not enough memory; then it changes
/// nothing.
pub(crate) fn end_stream<'a>(
    stream: &NamedStream<'a>,
    line_buffer: &mut LineBuffer,
    user: &mut UserInput<'a>,
    told: &mut Vec<u8>,
) -> Result<(), AllocError>
    requires { IsOpen stream.now (position_of line_buffer.old) user.old }
    ensures ok { OnOk result (FinishesStream stream.now.tree.now stream.now.prefix.now stream.now.name.now (position_of line_buffer.old) user.old user.new told.old.items told.new.items) }
    ensures position { OnOk result (position_of line_buffer.new ≡ ended (position_of line_buffer.old)) }
    ensures unchanged { OnErr result ((user.new ≡ user.old) × (position_of line_buffer.new ≡ position_of line_buffer.old) × (told.new.items ≡ told.old.items)) }
    ensures pending { OnErr result (0 < length line_buffer.old.pending.items) }
    ensures opened { OnOk result (IsOpen stream.now (position_of line_buffer.new) user.new) }
{
    if line_buffer.pending.is_empty() {
        return Ok(());
    }
    end_line(stream, line_buffer, false, user, told)
}
