// The Serpent block cipher (src/lib.rs of the Rust): key setup, and one block each way.
#![tactic(auto)]

ghost use Rattle.std.specs.Prelude.{◌≡◌, ◌+◌, ◌*◌, ◌%◌, ◌≤◌, ◌<◌, IfOk, length};
ghost use Rattle.answers.specs.Numbers.{number};
ghost use Rattle.words.specs.Sized.{four};
ghost use Rattle.words.specs.Bytes.{words_of};
ghost use Rattle.bitslice.specs.Boxes.{box_words, box_inv_words};
ghost use Rattle.serpent.specs.Schedule.{padded, prekey, prekeys, box_of_key, round_keys, schedule};
ghost use Rattle.serpent.specs.Block.{mix, encrypt_bytes, decrypt_bytes};
ghost use Rattle.serpent.specs.Keys.{key_number};
ghost use Rattle.serpent.specs.Turns.{KeysUpTo};

use answers::Refusal;
use bitslice::{linear_transform, linear_transform_inv, round_box, round_box_inv};
use state::{read_words, write_words, xor};
use std::array;
use words::{Words, from_le_bytes, rotate_left};

// The 33 round keys, one after the other.
#[derive(Drop)]
pub struct Serpent {
    pub round_keys: [u32; 132],
}

// The key bytes, the mark 0x01 behind them where there is room, and zeros.
fn expand_key(source: &[u8]) -> [u8; 32]
    requires { length source.now ≤ 32 }
    ensures { result ≡ padded source.now }
{
    let mut key = [0u8; 32];
    key[..source.len()].copy_from_slice(source);
    if source.len() < 32 {
        key[source.len()] = 1;
    }
    key
}

// The padded key of any bytes: of those past the 32nd nothing is left.
pub fn padded_key(source: &[u8]) -> [u8; 32]
    ensures { result ≡ padded source.now }
{
    expand_key(&source[..source.len().min(32)])
}

// The words of a box alone: there is one for every index, which is reduced by 8.
#[inline(always)]
pub fn s_box(index: usize, words: Words) -> Words
    ensures { result ≡ box_words index words }
{
    round_box(index, words)
}

#[inline(always)]
pub fn s_box_inv(index: usize, words: Words) -> Words
    ensures { result ≡ box_inv_words index words }
{
    round_box_inv(index, words)
}

// Four words from place p on.
fn four_words(w: &[u32], p: usize) -> Words
    requires { p + 4 ≤ length w.now }
    ensures { result ≡ four w.now p }
{
    array::from_fn(|j| w[p + j])
}

// w(i), from the list that holds w(-8) to w(i - 1).
fn next_prekey(words: &[u32; 140], i: usize) -> u32
    requires { i < 132 }
    ensures { result ≡ prekey words.now i }
{
    rotate_left(
        words[i] ^ words[i + 3] ^ words[i + 5] ^ words[i + 7] ^ Serpent::PHI ^ i as u32,
        11,
    )
}

// The eight key words, and the 132 prekeys after them.
fn make_prekeys(key: [u8; 32]) -> [u32; 140]
    ensures { result ≡ prekeys (words_of key 8) 132 }
{
    let mut words = [0u32; 140];
    let (chunks, _) = key.as_chunks();
    for (i, bytes) in chunks.iter().enumerate() {
        words[i] = from_le_bytes(*bytes);
    }
    for i in 0..132 {
        words[i + 8] = next_prekey(&words, i);
    }
    words
}

// Round key i, by the box at `index`, into its four places.
fn put_round_key(words: &[u32; 140], i: usize, index: usize, k: &mut [u32; 132])
    requires { (i ≤ 32) × (index % 8 ≡ box_of_key i % 8) × KeysUpTo words.now k.old i }
    ensures { KeysUpTo words.now k.new (i + 1) }
{
    let s = four_words(words, 4 * i + 8);
    let output = s_box(index, s);
    for (j, word) in output.iter().enumerate() {
        k[4 * i + j] = *word;
    }
}

// Round keys 8 t to 8 t + 7, with the numbers of their boxes written out: then nothing is left to choose.
fn put_eight(words: &[u32; 140], t: usize, k: &mut [u32; 132])
    requires { (t < 4) × KeysUpTo words.now k.old (8 * t) }
    ensures { KeysUpTo words.now k.new (8 * (t + 1)) }
{
    put_round_key(words, 8 * t, 3, k);
    put_round_key(words, 8 * t + 1, 2, k);
    put_round_key(words, 8 * t + 2, 1, k);
    put_round_key(words, 8 * t + 3, 0, k);
    put_round_key(words, 8 * t + 4, 7, k);
    put_round_key(words, 8 * t + 5, 6, k);
    put_round_key(words, 8 * t + 6, 5, k);
    put_round_key(words, 8 * t + 7, 4, k);
}

// The 33 round keys, from the prekeys.
fn make_round_keys(words: &[u32; 140]) -> [u32; 132]
    ensures { result ≡ round_keys words.now 33 }
{
    let mut k = [0u32; 132];
    for t in 0..4 {
        put_eight(words, t, &mut k);
    }
    put_round_key(words, Serpent::ROUNDS, 3, &mut k);
    k
}

// XOR with round key i.
fn mix_key(round_keys: &[u32; 132], i: usize, b: Words) -> Words
    requires { i ≤ 32 }
    ensures { result ≡ mix round_keys.now i b }
{
    xor(b, four_words(round_keys, 4 * i))
}

impl Serpent {
    pub const ROUNDS: usize = 32;

    pub const LEAST_KEY: usize = 16;

    pub const GREATEST_KEY: usize = 32;

    pub const PHI: u32 = 0x9e37_79b9;

    // The test of a key of that many bytes.
    pub fn check_key(length: usize) -> Result<(), Refusal>
        ensures { number result ≡ key_number length }
    {
        if length < Self::LEAST_KEY || length > Self::GREATEST_KEY {
            return Err(Refusal::KeyLength);
        }
        Ok(())
    }

    // Key setup over any bytes.
    pub fn new_from_slice(key: &[u8]) -> Result<Serpent, Refusal>
        ensures number { number result ≡ key_number (length key.now) }
        ensures round_keys { IfOk result (λ cipher. cipher.round_keys ≡ schedule key.now) }
    {
        Self::check_key(key.len())?;
        let prekeys = make_prekeys(expand_key(key));
        let round_keys = make_round_keys(&prekeys);
        Ok(Serpent { round_keys })
    }

    // One block enciphered under any 33 round keys.
    pub fn encrypt_block(round_keys: &[u32; 132], block: [u8; 16]) -> [u8; 16]
        ensures { result ≡ encrypt_bytes round_keys.now block }
    {
        let mut b = read_words(block);
        for i in 0..Self::ROUNDS - 1 {
            let xb = mix_key(round_keys, i, b);
            let s = round_box(i, xb);
            let next = linear_transform(s);
            b = next;
        }
        let xb = mix_key(round_keys, Self::ROUNDS - 1, b);
        let s = s_box(Self::ROUNDS - 1, xb);
        write_words(mix_key(round_keys, Self::ROUNDS, s))
    }

    // One block deciphered under any 33 round keys.
    pub fn decrypt_block(round_keys: &[u32; 132], block: [u8; 16]) -> [u8; 16]
        ensures { result ≡ decrypt_bytes round_keys.now block }
    {
        let s = mix_key(round_keys, Self::ROUNDS, read_words(block));
        let xb = s_box_inv(Self::ROUNDS - 1, s);
        let mut b = mix_key(round_keys, Self::ROUNDS - 1, xb);
        for i in (0..Self::ROUNDS - 1).rev() {
            let s = linear_transform_inv(b);
            let xb = round_box_inv(i, s);
            let next = mix_key(round_keys, i, xb);
            b = next;
        }
        write_words(b)
    }
}
