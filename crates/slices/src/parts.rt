// The parts of the cipher over slices: the padded key, the round keys, a box, the linear transform.
ghost use Rattle.std.specs.Prelude.{◌≡◌, IfOk, length};
ghost use Rattle.answers.specs.Answers.{single_number};
ghost use Rattle.answers.specs.Numbers.{number};
ghost use Rattle.words.specs.Bytes.{words_of, bytes_of};
ghost use Rattle.slices.specs.Parts.{setup_number, padded_out, round_keys_out, boxed_number, boxed_out, boxed_inv_out, words_number, linear_out, linear_inv_out};

use answers::{Refusal, put_answer, single_block};
use serpent::{Serpent, padded_key};
use state::{read_words, write_words};
use words::Words;

// The round keys as bytes, the lowest of a word first.
#[tactic(auto, using(words::proofs::Bytes::word_by_word))]
fn round_key_bytes(round_keys: &[u32; 132]) -> [u8; 528]
    ensures { result ≡ bytes_of round_keys.now 528 }
{
    let mut bytes = [0; 528];
    for (i, word) in round_keys.iter().enumerate() {
        bytes[4 * i..4 * i + 4].copy_from_slice(&word.to_le_bytes());
    }
    bytes
}

// The four words of exactly sixteen bytes.
fn four_words(bytes: &[u8]) -> Result<Words, Refusal>
    ensures number { number result ≡ single_number (length bytes.now) }
    ensures words { IfOk result (λ w. w ≡ words_of bytes.now 4) }
{
    Ok(read_words(single_block(bytes)?))
}

// The padded key, 32 bytes.
pub fn expand_key(key: &[u8], out: &mut [u8]) -> Result<(), Refusal>
    ensures number { number result ≡ setup_number (length key.now) (length out.old) 32 }
    ensures written { out.new ≡ padded_out key.now out.old }
{
    Serpent::check_key(key.len())?;
    put_answer(&padded_key(key), out)
}

// The round keys, 528 bytes.
pub fn new_from_slice(key: &[u8], out: &mut [u8]) -> Result<(), Refusal>
    ensures number { number result ≡ setup_number (length key.now) (length out.old) 528 }
    ensures written { out.new ≡ round_keys_out key.now out.old }
{
    let cipher = Serpent::new_from_slice(key)?;
    put_answer(&round_key_bytes(&cipher.round_keys), out)
}

// A box, chosen by an index that is reduced by 8, on sixteen bytes.
pub fn apply_s(index: usize, words: &[u8], out: &mut [u8]) -> Result<(), Refusal>
    ensures number { number result ≡ boxed_number index (length words.now) (length out.old) }
    ensures written { out.new ≡ boxed_out index words.now out.old }
{
    let boxed = bitslice::apply_s(index, four_words(words)?)?;
    put_answer(&write_words(boxed), out)
}

// The inverse of a box, chosen in the same way.
pub fn apply_s_inv(index: usize, words: &[u8], out: &mut [u8]) -> Result<(), Refusal>
    ensures number { number result ≡ boxed_number index (length words.now) (length out.old) }
    ensures written { out.new ≡ boxed_inv_out index words.now out.old }
{
    let unboxed = bitslice::apply_s_inv(index, four_words(words)?)?;
    put_answer(&write_words(unboxed), out)
}

// The linear transform on sixteen bytes.
pub fn linear_transform(words: &[u8], out: &mut [u8]) -> Result<(), Refusal>
    ensures number { number result ≡ words_number (length words.now) (length out.old) }
    ensures written { out.new ≡ linear_out words.now out.old }
{
    let transformed = bitslice::linear_transform(four_words(words)?);
    put_answer(&write_words(transformed), out)
}

// Its inverse.
pub fn linear_transform_inv(words: &[u8], out: &mut [u8]) -> Result<(), Refusal>
    ensures number { number result ≡ words_number (length words.now) (length out.old) }
    ensures written { out.new ≡ linear_inv_out words.now out.old }
{
    let restored = bitslice::linear_transform_inv(four_words(words)?);
    put_answer(&write_words(restored), out)
}
