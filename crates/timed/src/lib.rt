// Key setup, blocks and chains of crates serpent and chain, one thin call each: what make bench times under round keys.
#![tactic(auto)]

ghost use Rattle.std.specs.Prelude.{◌≡◌, length};
ghost use Rattle.answers.specs.Answers.{left};
ghost use Rattle.serpent.specs.Block.{encrypt_bytes, decrypt_bytes};
ghost use Rattle.serpent.specs.Keys.{keyed};
ghost use Rattle.chain.specs.Slices.{enciphered, deciphered, blocks_number};

use answers::number_of;
use serpent::Serpent;

// Key setup: its number, and the round keys, which are zeros where the key is refused.
pub fn timed_new_from_slice(key: &[u8], round_keys: &mut [u32; 132]) -> u32
    ensures number { result ≡ (keyed key.now).number }
    ensures written { round_keys.new ≡ (keyed key.now).cipher.round_keys }
{
    let set_up = Serpent::new_from_slice(key);
    let number = number_of(&set_up);
    *round_keys = match set_up {
        Ok(cipher) => cipher.round_keys,
        Err(_) => [0u32; 132],
    };
    number
}

// One block enciphered.
pub fn timed_encrypt_block(round_keys: &[u32; 132], block: &[u8; 16], out: &mut [u8; 16])
    ensures { out.new ≡ encrypt_bytes round_keys.now block.now }
{
    *out = Serpent::encrypt_block(round_keys, *block);
}

// One block deciphered.
pub fn timed_decrypt_block(round_keys: &[u32; 132], block: &[u8; 16], out: &mut [u8; 16])
    ensures { out.new ≡ decrypt_bytes round_keys.now block.now }
{
    *out = Serpent::decrypt_block(round_keys, *block);
}

// A chain enciphered, of any number of blocks: 2 5.
pub fn timed_encrypt_blocks(
    round_keys: &[u32; 132],
    text: &[u8],
    start: &[u8; 16],
    out: &mut [u8],
) -> u32
    ensures number { result ≡ blocks_number (length text.now) (length out.old) }
    ensures written { out.new ≡ left (blocks_number (length text.now) (length out.old)) (enciphered round_keys.now start.now text.now) out.old }
{
    number_of(&chain::encrypt_blocks(round_keys, text, *start, out))
}

// A chain deciphered: 2 5.
pub fn timed_decrypt_blocks(
    round_keys: &[u32; 132],
    cipher: &[u8],
    start: &[u8; 16],
    out: &mut [u8],
) -> u32
    ensures number { result ≡ blocks_number (length cipher.now) (length out.old) }
    ensures written { out.new ≡ left (blocks_number (length cipher.now) (length out.old)) (deciphered round_keys.now start.now cipher.now) out.old }
{
    number_of(&chain::decrypt_blocks(round_keys, cipher, *start, out))
}
