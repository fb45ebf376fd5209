// The cipher and its parts.
ghost use Rattle.std.specs.Prelude.{◌≡◌, length};
ghost use Rattle.slices.specs.Parts.{setup_number, padded_out, round_keys_out, boxed_number, boxed_out, boxed_inv_out, words_number, linear_out, linear_inv_out};
ghost use Rattle.slices.specs.Blocks.{block_number, encrypted_out, decrypted_out};

use answers::number_of;

// The padded key, 32 bytes: 1 5.
pub fn barkmottle_expand_key(key: &[u8], out: &mut [u8]) -> u32
    ensures number { result ≡ setup_number (length key.now) (length out.old) 32 }
    ensures written { out.new ≡ padded_out key.now out.old }
{
    number_of(&slices::parts::expand_key(key, out))
}

// The round keys, 528 bytes of little-endian words: 1 5.
pub fn barkmottle_new_from_slice(key: &[u8], out: &mut [u8]) -> u32
    ensures number { result ≡ setup_number (length key.now) (length out.old) 528 }
    ensures written { out.new ≡ round_keys_out key.now out.old }
{
    number_of(&slices::parts::new_from_slice(key, out))
}

// A box on four little-endian words, 16 bytes: 2 8 5.
pub fn barkmottle_apply_s(index: usize, words: &[u8], out: &mut [u8]) -> u32
    ensures number { result ≡ boxed_number index (length words.now) (length out.old) }
    ensures written { out.new ≡ boxed_out index words.now out.old }
{
    number_of(&slices::parts::apply_s(index, words, out))
}

// The inverse of a box, 16 bytes: 2 8 5.
pub fn barkmottle_apply_s_inv(index: usize, words: &[u8], out: &mut [u8]) -> u32
    ensures number { result ≡ boxed_number index (length words.now) (length out.old) }
    ensures written { out.new ≡ boxed_inv_out index words.now out.old }
{
    number_of(&slices::parts::apply_s_inv(index, words, out))
}

// The linear transform of four words, 16 bytes: 2 5.
pub fn barkmottle_linear_transform(words: &[u8], out: &mut [u8]) -> u32
    ensures number { result ≡ words_number (length words.now) (length out.old) }
    ensures written { out.new ≡ linear_out words.now out.old }
{
    number_of(&slices::parts::linear_transform(words, out))
}

// Its inverse, 16 bytes: 2 5.
pub fn barkmottle_linear_transform_inv(words: &[u8], out: &mut [u8]) -> u32
    ensures number { result ≡ words_number (length words.now) (length out.old) }
    ensures written { out.new ≡ linear_inv_out words.now out.old }
{
    number_of(&slices::parts::linear_transform_inv(words, out))
}

// One block enciphered, 16 bytes: 1 2 5.
pub fn barkmottle_encrypt_block(key: &[u8], block: &[u8], out: &mut [u8]) -> u32
    ensures number { result ≡ block_number (length key.now) (length block.now) (length out.old) }
    ensures written { out.new ≡ encrypted_out key.now block.now out.old }
{
    number_of(&slices::encrypt_block(key, block, out))
}

// One block deciphered, 16 bytes: 1 2 5.
pub fn barkmottle_decrypt_block(key: &[u8], block: &[u8], out: &mut [u8]) -> u32
    ensures number { result ≡ block_number (length key.now) (length block.now) (length out.old) }
    ensures written { out.new ≡ decrypted_out key.now block.now out.old }
{
    number_of(&slices::decrypt_block(key, block, out))
}
