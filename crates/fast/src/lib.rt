// The same cipher by faster forms, for chains: one block by eight rounds a turn, and sixteen blocks at a time.
#![tactic(auto)]

mod lanes;
mod rounds;

ghost use Rattle.std.specs.Prelude.{◌≡◌};
ghost use Rattle.serpent.specs.Block.{encrypt_bytes, decrypt_bytes};
ghost use Rattle.fast.specs.Lanes.{decrypt_each};

use lanes::{decrypt_each, load, store};
use rounds::{decrypt_words, encrypt_words};
use state::{read_words, write_words};

// One block enciphered, and deciphered, under any 33 round keys.
#[tactic(auto, unfolding(serpent::specs::Block::encrypt_bytes))]
pub fn encrypt_block(round_keys: &[u32; 132], block: [u8; 16]) -> [u8; 16]
    ensures { result ≡ encrypt_bytes round_keys.now block }
{
    write_words(encrypt_words(round_keys, read_words(block)))
}

#[tactic(auto, unfolding(serpent::specs::Block::decrypt_bytes))]
pub fn decrypt_block(round_keys: &[u32; 132], block: [u8; 16]) -> [u8; 16]
    ensures { result ≡ decrypt_bytes round_keys.now block }
{
    write_words(decrypt_words(round_keys, read_words(block)))
}

// The first sixteen blocks of `cipher`, each deciphered on its own; zeros stand in for a block that it does not have.
#[tactic(auto, using(crate::proofs::Sixteen::each_deciphered))]
pub fn decrypt_sixteen(round_keys: &[u32; 132], cipher: &[u8]) -> [u8; 256]
    ensures { result ≡ decrypt_each round_keys.now 16 cipher.now }
{
    let mut w = load(cipher);
    decrypt_each(round_keys, &mut w);
    store(&w)
}
