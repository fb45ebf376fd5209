// A line of data: OPERATION NUMBER KEY BYTES START PLACE COUNT ROOM ANSWER, one space apart. `-` stands for a field
// that the operation does not take, and for no bytes. It says a call, and the number and bytes that are due from it.
ghost use Rattle.std.specs.Prelude.{◌≡◌, ◌≤◌, true};
ghost use Rattle.check_data.specs.declared.fields.TheConstants.{MOST};
ghost use Rattle.check_text.specs.Pattern.{Answer};

use crate::calls::{Call, Failure, Field, operation_of};
use crate::fields::{LineError, MOST, bytes_of, number_of};
use check_text::pattern::{FILL, is_answer};
use std::{fmt, str};

// A field that the operation does not take, or that has no bytes.
const ABSENT: &[u8] = b"-";

#[derive(Clone, Copy, Debug, PartialEq, Eq)]
pub enum Verdict {
    Right,
    Wrong,
    Malformed,
}

// A verdict as it stands between the number of a line and its operation.
impl fmt::Display for Verdict {
    fn fmt<W: fmt::Write>(&self, f: &mut fmt::Formatter<W>) -> fmt::Result {
        f.write_str(match self {
            Verdict::Right => ": right: ",
            Verdict::Wrong => ": wrong: ",
            Verdict::Malformed => ": malformed: ",
        })
    }
}

// What a line says. The call is lent so much room.
#[derive(Drop)]
struct Line<'a> {
    call: Call<'a>,
    room: usize,
    number: u64,
    answer: &'a [u8],
    ghost in_range: { room ≤ MOST },
}

// Room for the bytes of the four fields of a line that have them.
#[derive(Drop)]
pub struct Rooms {
    pub key: [u8; MOST],
    pub bytes: [u8; MOST],
    pub start: [u8; MOST],
    pub answer: [u8; MOST],
}

// The bytes of a field, if the operation takes it.
fn bytes_if<'a>(
    is_taken: bool,
    field: &[u8],
    room: &'a mut [u8; MOST],
) -> Result<&'a [u8], LineError> {
    if field == ABSENT {
        return Ok(&[]);
    }
    if !is_taken {
        return Err(LineError::Malformed);
    }
    bytes_of(field, room)
}

// The number of a field, if the operation takes it.
fn number_if(is_taken: bool, field: &[u8]) -> Result<Option<usize>, LineError> {
    if is_taken {
        return Ok(Some(number_of(field)? as usize));
    }
    if field != ABSENT {
        return Err(LineError::Malformed);
    }
    Ok(None)
}

// A field, which no line may lack.
fn due(field: Option<&[u8]>) -> Result<&[u8], LineError> {
    field.ok_or(LineError::Malformed)
}

fn is_space(byte: &u8) -> bool {
    *byte == b' '
}

// The line that a text says, whose bytes are put into the rooms.
fn line_of<'a>(text: &[u8], rooms: &'a mut Rooms) -> Result<Line<'a>, LineError> {
    let mut fields = text.split(is_space);
    let name = str::from_utf8(due(fields.next())?)?;
    let (operation, taken) = operation_of(name).ok_or(LineError::Malformed)?;
    let takes = |field: Field| taken.contains(&field);
    let number = number_of(due(fields.next())?)?;
    let key = bytes_if(takes(Field::Key), due(fields.next())?, &mut rooms.key)?;
    let bytes = bytes_if(takes(Field::Bytes), due(fields.next())?, &mut rooms.bytes)?;
    let start = bytes_if(takes(Field::Start), due(fields.next())?, &mut rooms.start)?;
    let place = number_if(takes(Field::Place), due(fields.next())?)?.unwrap_or(0);
    let count = number_if(takes(Field::Count), due(fields.next())?)?.unwrap_or(0);
    let room = number_if(takes(Field::Room), due(fields.next())?)?.unwrap_or(MOST);
    let answer = bytes_if(true, due(fields.next())?, &mut rooms.answer)?;
    if room > MOST || fields.next().is_some() {
        return Err(LineError::Malformed);
    }
    let call = Call {
        operation,
        key,
        bytes,
        start,
        place,
        count,
    };
    Ok(Line {
        call,
        room,
        number,
        answer,
    })
}

// Whether a call has answered the wanted number, and left the wanted bytes and the fill behind them.
fn is_right(number: u32, wanted: u64, out: &[u8], answer: &[u8]) -> bool
    ensures number { result ≡ true → number ≡ wanted }
    ensures answer { result ≡ true → Answer out.now answer.now }
    ensures both { number ≡ wanted → Answer out.now answer.now → result ≡ true }
{
    u64::from(number) == wanted && is_answer(out, answer)
}

impl Line<'_> {
    // Makes the call, in room that is filled before.
    fn verdict(&self) -> Verdict {
        let mut out = [FILL; MOST];
        let answer = match self.call.make(&mut out[..self.room]) {
            Ok(()) => Ok(()),
            Err(Failure::Refused(refusal)) => Err(refusal),
            Err(Failure::NotBack | Failure::TwoAnswers) => return Verdict::Wrong,
        };
        if is_right(answers::number_of(&answer), self.number, &out, self.answer) {
            return Verdict::Right;
        }
        Verdict::Wrong
    }
}

// Makes the call of a line, whose bytes are put into the rooms, and compares.
pub fn check_line(line: &[u8], rooms: &mut Rooms) -> Verdict {
    match line_of(line, rooms) {
        Ok(line) => line.verdict(),
        Err(LineError::Malformed) => Verdict::Malformed,
    }
}
