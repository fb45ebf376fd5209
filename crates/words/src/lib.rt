// What the Rust takes from core: rotations of a word, and words as bytes.
#![tactic(auto)]

pub mod blocks;

ghost use Rattle.std.specs.Prelude.{◌≡◌, ◌%◌};
ghost use Rattle.words.specs.Rotation.{rotl, rotr};
ghost use Rattle.words.specs.Bytes.{word_at, le_byte, be_word_at};

// The four words of a block.
pub type Words = [u32; 4];

// x rotated left by n places, n reduced by 32.
#[tactic(auto, using(crate::proofs::Rotate::rotated_left))]
pub fn rotate_left(x: u32, n: u32) -> u32
    ensures { result ≡ rotl (n % 32) x }
{
    x.rotate_left(n)
}

// x rotated right by n places, n reduced by 32.
#[tactic(auto, using(crate::proofs::Rotate::rotated_right))]
pub fn rotate_right(x: u32, n: u32) -> u32
    ensures { result ≡ rotr (n % 32) x }
{
    x.rotate_right(n)
}

// The word of four bytes, the lowest first.
#[tactic(auto, unfolding(crate::specs::Bytes::word_of))]
pub fn from_le_bytes(bytes: [u8; 4]) -> u32
    ensures { result ≡ word_at bytes 0 }
{
    u32::from_le_bytes(bytes)
}

// The word of four bytes, the highest first.
#[tactic(auto, unfolding(crate::specs::Bytes::word_of))]
pub fn from_be_bytes(bytes: [u8; 4]) -> u32
    ensures { result ≡ be_word_at bytes 0 }
{
    u32::from_be_bytes(bytes)
}

// Byte k of a word, the lowest first, k reduced by 4.
pub fn le_byte(x: u32, k: usize) -> u8
    ensures { result ≡ le_byte x (k % 4) }
{
    x.to_le_bytes()[k % 4]
}
