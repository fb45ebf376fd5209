// A key spelt in hexadecimal digits, read into bytes. White space between the digits is left out.
#![tactic(auto)]

mod digits;
mod symbol;

ghost use Rattle.std.specs.Prelude.{◌≡◌, ◌≤◌, eqb, length, position};
ghost use Rattle.answers.specs.Answers.{front};
ghost use Rattle.hexkey.specs.Key.{value, digits, spelt, key_bytes, key_out};
ghost use Rattle.hexkey.specs.Answers.{answer, told};

use digits::{Bytes, Digits};
use symbol::Symbol;

// Why a text spells no key for a buffer. Each says how many digits the text has.
#[derive(Clone, Copy, Debug, PartialEq, Eq)]
pub enum Misspelt {
    // The byte at that place, counted from 1, is the first that is neither digit nor white space.
    Wrong { place: usize, digits: usize },
    // The last digit has no second.
    Odd { digits: usize },
    // The buffer has no room for the key's bytes.
    Long { digits: usize },
}

#[tactic(auto, using(crate::proofs::Spelling::digits_within))]
fn count_digits(text: &[u8]) -> usize
    ensures { result ≡ length (digits text.now) }
{
    Digits(text).count()
}

// Whether a byte is neither digit nor white space.
#[tactic(auto, unfolding(crate::specs::Symbols::symbol, crate::specs::Key::value))]
fn is_wrong(byte: u8) -> bool
    ensures { result ≡ eqb (value byte) 17 }
{
    matches!(Symbol::from(byte), Symbol::Other)
}

// How many bytes stand before the first that is neither digit nor white space.
fn find_wrong(text: &[u8]) -> Option<usize>
    ensures { result ≡ position (λ b. eqb (value b) 17) text.now }
{
    text.iter().position(|byte| is_wrong(*byte))
}

// Puts the key's bytes in front.
fn fill(text: &[u8], out: &mut [u8])
    requires { length (key_bytes text.now) ≤ length out.old }
    ensures { out.new ≡ front (key_bytes text.now) out.old }
{
    let mut bytes = Bytes(Digits(text));
    for place in out {
        let Some(byte) = bytes.next() else {
            break;
        };
        *place = byte;
    }
}

// Reads a key, and answers how many bytes it has. The buffer changes only where it is read.
#[tactic(auto, using(crate::proofs::Reading::reading), unfolding(crate::specs::Key::key_out, crate::specs::Key::spelt))]
pub fn read_key(text: &[u8], out: &mut [u8]) -> Result<usize, Misspelt>
    ensures answer { result ≡ answer text.now (length out.old) }
    ensures written { out.new ≡ key_out text.now out.old }
    ensures spelt { told result ≡ spelt text.now }
{
    let digits = count_digits(text);
    if let Some(before) = find_wrong(text) {
        let place = before + 1;
        return Err(Misspelt::Wrong { place, digits });
    }
    if digits % 2 != 0 {
        return Err(Misspelt::Odd { digits });
    }
    let size = digits / 2;
    if out.len() < size {
        return Err(Misspelt::Long { digits });
    }
    fill(text, out);
    Ok(size)
}
