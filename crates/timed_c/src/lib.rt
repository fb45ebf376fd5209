// Key setup, blocks and chains of crates serpent and chain, one thin call each: what make bench times under round keys.
#![tactic(auto)]

ghost use Rattle.std.specs.Prelude.{◌≡◌, length};
ghost use Rattle.answers.specs.Answers.{left};
ghost use Rattle.serpent.specs.Block.{encrypt_bytes, decrypt_bytes};
ghost use Rattle.serpent.specs.Keys.{keyed};
ghost use Rattle.chain.specs.Slices.{enciphered, deciphered, blocks_number};

// Key setup: its number, and the round keys, which are zeros where the key is refused.
#[unsafe(no_mangle)]
pub extern "C" fn timed_new_from_slice(key: &[u8], round_keys: &mut [u32; 132]) -> u32
    ensures number { result ≡ (keyed key.now).number }
    ensures written { round_keys.new ≡ (keyed key.now).cipher.round_keys }
{
    timed::timed_new_from_slice(key, round_keys)
}

// One block enciphered.
#[unsafe(no_mangle)]
pub extern "C" fn timed_encrypt_block(round_keys: &[u32; 132], block: &[u8; 16], out: &mut [u8; 16])
    ensures { out.new ≡ encrypt_bytes round_keys.now block.now }
{
    timed::timed_encrypt_block(round_keys, block, out);
}

// One block deciphered.
#[unsafe(no_mangle)]
pub extern "C" fn timed_decrypt_block(round_keys: &[u32; 132], block: &[u8; 16], out: &mut [u8; 16])
    ensures { out.new ≡ decrypt_bytes round_keys.now block.now }
{
    timed::timed_decrypt_block(round_keys, block, out);
}

// A chain enciphered, of any number of blocks: 2 5.
#[unsafe(no_mangle)]
pub extern "C" fn timed_encrypt_blocks(
    round_keys: &[u32; 132],
    text: &[u8],
    start: &[u8; 16],
    out: &mut [u8],
) -> u32
    ensures number { result ≡ blocks_number (length text.now) (length out.old) }
    ensures written { out.new ≡ left (blocks_number (length text.now) (length out.old)) (enciphered round_keys.now start.now text.now) out.old }
{
    timed::timed_encrypt_blocks(round_keys, text, start, out)
}

// A chain deciphered: 2 5.
#[unsafe(no_mangle)]
pub extern "C" fn timed_decrypt_blocks(
    round_keys: &[u32; 132],
    cipher: &[u8],
    start: &[u8; 16],
    out: &mut [u8],
) -> u32
    ensures number { result ≡ blocks_number (length cipher.now) (length out.old) }
    ensures written { out.new ≡ left (blocks_number (length cipher.now) (length out.old)) (deciphered round_keys.now start.now cipher.now) out.old }
{
    timed::timed_decrypt_blocks(round_keys, cipher, start, out)
}
