// Why an operation refuses, the number of each reason, and the answer put into a lent buffer.
#![tactic(auto)]

ghost use Rattle.std.specs.Prelude.{◌≡◌, IfOk, length};
ghost use Rattle.answers.specs.Numbers.{number};
ghost use Rattle.answers.specs.Answers.{single_number, room_number, left};

// Why an operation refuses. A host in C is told its number; 0 is for what is done.
#[derive(Clone, Copy, Debug, PartialEq, Eq)]
pub enum Refusal {
    // The key is shorter than 16 or longer than 32 bytes.
    KeyLength = 1,
    // The text or cipher bytes are not whole blocks; for a single block or event, not exactly 16 bytes.
    TextLength = 2,
    // The start block is not exactly 16 bytes.
    StartLength = 3,
    // There are more blocks than the limit.
    TooMany = 4,
    // The output buffer is shorter than the answer.
    OutShort = 5,
    // The frame is shorter than its header, or its length field does not agree with it.
    FrameLength = 6,
    // The version byte is none that is known.
    Version = 7,
    // The box number, reduced by 8, is above 7.
    NoBox = 8,
    // The place or the window is beyond the frame's blocks.
    Beyond = 9,
    // The event block is not readable.
    NotReadable = 10,
    // There is no readable event from the place on.
    NoEvent = 11,
}

// The number of an answer, for a host that takes numbers only.
pub fn number_of<T>(answer: &Result<T, Refusal>) -> u32
    ensures { result ≡ number answer.now }
{
    match answer {
        Ok(_) => 0,
        Err(refusal) => *refusal as u32,
    }
}

// A single block: exactly sixteen bytes.
#[tactic(auto, using(crate::proofs::Answers::single_is, crate::proofs::Answers::single_not))]
pub fn single_block(bytes: &[u8]) -> Result<[u8; 16], Refusal>
    ensures number { number result ≡ single_number (length bytes.now) }
    ensures block { IfOk result (λ block. block ≡ bytes.now) }
{
    match bytes.try_into() {
        Ok(block) => Ok(block),
        Err(_) => Err(Refusal::TextLength),
    }
}

// Puts an answer over the first bytes of a lent buffer. The test of its room is the last of an operation.
pub fn put_answer(answer: &[u8], out: &mut [u8]) -> Result<(), Refusal>
    ensures number { number result ≡ room_number (length out.old) (length answer.now) }
    ensures written { out.new ≡ left (room_number (length out.old) (length answer.now)) answer.now out.old }
{
    if out.len() < answer.len() {
        return Err(Refusal::OutShort);
    }
    out[..answer.len()].copy_from_slice(answer);
    Ok(())
}
