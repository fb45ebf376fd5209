// The cipher over slices: one block under a key, every number and every byte of the output buffer; its parts in `parts`.
#![tactic(auto)]

pub mod parts;

ghost use Rattle.std.specs.Prelude.{◌≡◌, ℕ, List, length};
ghost use Rattle.answers.specs.Answers.{left};
ghost use Rattle.answers.specs.Numbers.{number};
ghost use Rattle.serpent.specs.Schedule.{schedule};
ghost use Rattle.serpent.specs.Block.{encrypt_bytes, decrypt_bytes};
ghost use Rattle.slices.specs.Blocks.{block_number, encrypted_out, decrypted_out};

use answers::{Refusal, put_answer, single_block};
use serpent::Serpent;

// One way through the cipher: enciphering, or deciphering.
trait Way {
    ghost of_block: { List ℕ → List ℕ → List ℕ };

    fn block(round_keys: &[u32; 132], block: [u8; 16]) -> [u8; 16]
        ensures { result ≡ of_block round_keys.now block };
}

struct Enciphering;

struct Deciphering;

impl Way for Enciphering {
    ghost of_block = { encrypt_bytes };

    fn block(round_keys: &[u32; 132], block: [u8; 16]) -> [u8; 16] {
        Serpent::encrypt_block(round_keys, block)
    }
}

impl Way for Deciphering {
    ghost of_block = { decrypt_bytes };

    fn block(round_keys: &[u32; 132], block: [u8; 16]) -> [u8; 16] {
        Serpent::decrypt_block(round_keys, block)
    }
}

// The tests in their order, and then the block under the key's round keys, into the first bytes of `out`: no key is set
// up for what is refused.
#[tactic(auto, using(crate::proofs::OneBlock::other_block, crate::proofs::OneBlock::other_kept))]
fn under_key<W: Way>(key: &[u8], block: &[u8], out: &mut [u8]) -> Result<(), Refusal>
    ensures number { number result ≡ block_number (length key.now) (length block.now) (length out.old) }
    ensures written { out.new ≡ left (block_number (length key.now) (length block.now) (length out.old)) (W.of_block (schedule key.now) block.now) out.old }
{
    Serpent::check_key(key.len())?;
    let block = single_block(block)?;
    if out.len() < 16 {
        return Err(Refusal::OutShort);
    }
    let cipher = Serpent::new_from_slice(key)?;
    put_answer(&W::block(&cipher.round_keys, block), out)
}

// One block enciphered under a key, into the first bytes of `out`.
pub fn encrypt_block(key: &[u8], block: &[u8], out: &mut [u8]) -> Result<(), Refusal>
    ensures number { number result ≡ block_number (length key.now) (length block.now) (length out.old) }
    ensures written { out.new ≡ encrypted_out key.now block.now out.old }
{
    under_key::<Enciphering>(key, block, out)
}

// One block deciphered under a key, into the first bytes of `out`.
pub fn decrypt_block(key: &[u8], block: &[u8], out: &mut [u8]) -> Result<(), Refusal>
    ensures number { number result ≡ block_number (length key.now) (length block.now) (length out.old) }
    ensures written { out.new ≡ decrypted_out key.now block.now out.old }
{
    under_key::<Deciphering>(key, block, out)
}
