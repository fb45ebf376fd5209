// The fields of a line: numbers, and bytes in pieces that a comma parts.
ghost use Rattle.std.specs.Prelude.{◌≤◌, IfOk, length};
ghost use Rattle.std.specs.Counts.{IsPrefixLen};

use check_text::hex;
use std::num::ParseIntError;
use std::str;
use std::str::Utf8Error;

// The most bytes of a field.
pub const MOST: usize = 4224;

// Why a line says no call.
#[derive(Clone, Copy, Debug, PartialEq, Eq)]
pub enum LineError {
    Malformed,
}

impl From<ParseIntError> for LineError {
    fn from(_error: ParseIntError) -> LineError {
        LineError::Malformed
    }
}

impl From<Utf8Error> for LineError {
    fn from(_error: Utf8Error) -> LineError {
        LineError::Malformed
    }
}

// A number: decimal digits, below 2^64.
pub fn number_of(field: &[u8]) -> Result<u64, LineError> {
    if !field.iter().all(|byte| byte.is_ascii_digit()) {
        return Err(LineError::Malformed);
    }
    Ok(str::from_utf8(field)?.parse()?)
}

// Puts the byte that two digits spell so many times into the front of `out`, and answers how many.
fn repeated(times: u64, high: u8, low: u8, out: &mut [u8]) -> Result<usize, LineError>
    ensures { IfOk result (λ size. IsPrefixLen size out.new) }
{
    let times = times as usize;
    let byte = hex::byte_of(high, low).ok_or(LineError::Malformed)?;
    out.get_mut(..times).ok_or(LineError::Malformed)?.fill(byte);
    Ok(times)
}

// Puts the eight bytes of a number into the front of `out`, the highest first, and answers how many they are.
fn put_number(number: u64, out: &mut [u8]) -> Result<usize, LineError>
    ensures { IfOk result (λ size. IsPrefixLen size out.new) }
{
    let bytes = out.first_chunk_mut::<8>().ok_or(LineError::Malformed)?;
    *bytes = number.to_be_bytes();
    Ok(8)
}

// Puts the bytes that digits spell into the front of `out`, the last one first where `reversed`, and answers how many.
fn spelt(digits: &[u8], reversed: bool, out: &mut [u8]) -> Result<usize, LineError>
    ensures { IfOk result (λ size. IsPrefixLen size out.new) }
{
    hex::bytes_of(digits, reversed, out).ok_or(LineError::Malformed)
}

// Puts a piece of a field into the front of `out`, and answers how many bytes it is: `N*BB`, a byte so many times; `+N`
// or `-N`, a number with its sign as eight bytes in two's complement; and digits, behind a `~` where the last byte is
// printed first.
fn put_piece(piece: &[u8], out: &mut [u8]) -> Result<usize, LineError>
    ensures { IfOk result (λ size. IsPrefixLen size out.new) }
{
    match piece {
        [times @ .., b'*', high, low] => repeated(number_of(times)?, *high, *low, out),
        [b'+', digits @ ..] => put_number(number_of(digits)?, out),
        [b'-', digits @ ..] => put_number(number_of(digits)?.wrapping_neg(), out),
        [b'~', digits @ ..] => spelt(digits, true, out),
        digits => spelt(digits, false, out),
    }
}

// The bytes of a field, which are put into the front of `room`. No piece of it is empty.
pub fn bytes_of<'a>(field: &[u8], room: &'a mut [u8; MOST]) -> Result<&'a [u8], LineError>
    ensures { IfOk result (λ bytes. length bytes.now ≤ MOST) }
{
    let mut size = 0;
    for piece in field.split(|byte| *byte == b',') {
        let more = put_piece(piece, &mut room[size..])?;
        if more == 0 {
            return Err(LineError::Malformed);
        }
        size += more;
    }
    Ok(&room[..size])
}
