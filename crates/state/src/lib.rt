// The state of a block, four words (of the Rust's src/lib.rs): combined, read from bytes and written to them.
#![tactic(auto)]

ghost use Rattle.std.specs.Prelude.{◌≡◌};
ghost use Rattle.words.specs.Bytes.{words_of, bytes_of};
ghost use Rattle.state.specs.Words.{xor_words};

use std::array;
use words::{Words, from_le_bytes};

pub fn xor(b1: Words, k: Words) -> Words
    ensures { result ≡ xor_words b1 k }
{
    array::from_fn(|i| b1[i] ^ k[i])
}

// A block as four little-endian words, and back.
#[tactic(auto, unfolding(words::specs::Bytes::words_of, words::specs::Sized::list_of))]
pub fn read_words(src: [u8; 16]) -> Words
    ensures { result ≡ words_of src 4 }
{
    array::from_fn(|i| from_le_bytes([src[4 * i], src[4 * i + 1], src[4 * i + 2], src[4 * i + 3]]))
}

#[tactic(auto, using(words::proofs::Bytes::word_by_word))]
pub fn write_words(src: Words) -> [u8; 16]
    ensures { result ≡ bytes_of src 16 }
{
    let mut dst = [0; 16];
    for (i, word) in src.iter().enumerate() {
        dst[4 * i..4 * i + 4].copy_from_slice(&word.to_le_bytes());
    }
    dst
}
