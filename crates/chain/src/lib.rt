// The CBC chain: each cipher block is made of its text block and the cipher block before it.
#![tactic(auto)]

ghost use Rattle.std.specs.Prelude.{◌≡◌, ℕ, List, ◌+◌, ◌*◌, ◌≤◌, IfOk, length};
ghost use Rattle.answers.specs.Answers.{front, left};
ghost use Rattle.answers.specs.Numbers.{number};
ghost use Rattle.words.specs.Blocks.{block_at, put_at};
ghost use Rattle.serpent.specs.Schedule.{schedule};
ghost use Rattle.serpent.specs.Block.{encrypt_bytes, decrypt_bytes};
ghost use Rattle.chain.specs.Chain.{xor};
ghost use Rattle.chain.specs.Turns.{Among};
ghost use Rattle.chain.specs.Slices.{enciphered, deciphered, blocks_number, lengths_number, chain_number, encrypted_chain, decrypted_chain};

use answers::Refusal;
use fast::{decrypt_block, decrypt_sixteen, encrypt_block};
use serpent::Serpent;
use std::array;
use words::blocks::{block_at, put_block};

// The most blocks of a chain.
pub const MAX_BLOCKS: usize = 256;

fn xor_block(a: [u8; 16], b: [u8; 16]) -> [u8; 16]
    ensures { result ≡ xor a b }
{
    array::from_fn(|j| a[j] ^ b[j])
}

// One link of the chain: a block and the cipher block before it.
pub fn encrypt_link(round_keys: &[u32; 132], text: [u8; 16], before: [u8; 16]) -> [u8; 16]
    ensures { result ≡ encrypt_bytes round_keys.now (xor text before) }
{
    encrypt_block(round_keys, xor_block(text, before))
}

pub fn decrypt_link(round_keys: &[u32; 132], cipher: [u8; 16], before: [u8; 16]) -> [u8; 16]
    ensures { result ≡ xor (decrypt_bytes round_keys.now cipher) before }
{
    xor_block(decrypt_block(round_keys, cipher), before)
}

// Puts the texts of the sixteen blocks from place 16 s on. It answers the block that the next text is chained to.
fn put_sixteen(
    round_keys: &[u32; 132],
    sixteen: &[u8; 256],
    start: [u8; 16],
    s: usize,
    out: &mut [u8],
) -> [u8; 16]
    requires { s * 256 + 256 ≤ length out.old }
    ensures { Among (decrypt_bytes round_keys.now) sixteen.now s out.old start out.new result 16 }
{
    let deciphered = decrypt_sixteen(round_keys, sixteen);
    let (texts, _) = deciphered.as_chunks();
    let (blocks, _) = sixteen.as_chunks();
    let mut before = start;
    for (n, block) in blocks.iter().enumerate() {
        let text = xor_block(texts[n], before);
        put_block(text, out, (s * 16 + n) * 16);
        before = *block;
    }
    before
}

// One way through a chain under any 33 round keys: enciphering, or deciphering.
trait Way {
    ghost chained: { List ℕ → List ℕ → List ℕ → List ℕ };

    fn chain(round_keys: &[u32; 132], bytes: &[u8], start: [u8; 16], out: &mut [u8])
        requires { length bytes.now ≤ length out.old }
        ensures { out.new ≡ front (chained round_keys.now start bytes.now) out.old };
}

struct Enciphering;

struct Deciphering;

impl Way for Enciphering {
    ghost chained = { enciphered };

    fn chain(round_keys: &[u32; 132], text: &[u8], start: [u8; 16], out: &mut [u8]) {
        let mut before = start;
        let (blocks, _) = text.as_chunks();
        for (i, block) in blocks.iter().enumerate() {
            let cipher = encrypt_link(round_keys, *block, before);
            put_block(cipher, out, i * 16);
            before = cipher;
        }
    }
}

impl Way for Deciphering {
    ghost chained = { deciphered };

    // Sixteen blocks at a time, and those that are left one at a time.
    fn chain(round_keys: &[u32; 132], cipher: &[u8], start: [u8; 16], out: &mut [u8]) {
        let mut before = start;
        let (sixteens, rest) = cipher.as_chunks();
        for (s, sixteen) in sixteens.iter().enumerate() {
            let next = put_sixteen(round_keys, sixteen, before, s, out);
            before = next;
        }
        let (left, _) = rest.as_chunks();
        for (i, block) in left.iter().enumerate() {
            let text = decrypt_link(round_keys, *block, before);
            put_block(text, out, (sixteens.len() * 16 + i) * 16);
            before = *block;
        }
    }
}

// The tests under round keys in their order, on the lengths of text or cipher bytes and output buffer.
fn check_blocks(bytes: usize, out: usize) -> Result<(), Refusal>
    ensures { number result ≡ blocks_number bytes out }
{
    if bytes % 16 != 0 {
        return Err(Refusal::TextLength);
    }
    if out < bytes {
        return Err(Refusal::OutShort);
    }
    Ok(())
}

// Whole blocks chained under round keys, where there is room.
fn under_round_keys<W: Way>(
    round_keys: &[u32; 132],
    bytes: &[u8],
    start: [u8; 16],
    out: &mut [u8],
) -> Result<(), Refusal>
    ensures number { number result ≡ blocks_number (length bytes.now) (length out.old) }
    ensures written { out.new ≡ left (blocks_number (length bytes.now) (length out.old)) (W.chained round_keys.now start bytes.now) out.old }
{
    check_blocks(bytes.len(), out.len())?;
    W::chain(round_keys, bytes, start, out);
    Ok(())
}

// A text enciphered under any 33 round keys, and cipher bytes deciphered, into the first bytes of `out`. The limit is for the callers above.
pub fn encrypt_blocks(
    round_keys: &[u32; 132],
    text: &[u8],
    start: [u8; 16],
    out: &mut [u8],
) -> Result<(), Refusal>
    ensures number { number result ≡ blocks_number (length text.now) (length out.old) }
    ensures written { out.new ≡ left (blocks_number (length text.now) (length out.old)) (enciphered round_keys.now start text.now) out.old }
{
    under_round_keys::<Enciphering>(round_keys, text, start, out)
}

pub fn decrypt_blocks(
    round_keys: &[u32; 132],
    cipher: &[u8],
    start: [u8; 16],
    out: &mut [u8],
) -> Result<(), Refusal>
    ensures number { number result ≡ blocks_number (length cipher.now) (length out.old) }
    ensures written { out.new ≡ left (blocks_number (length cipher.now) (length out.old)) (deciphered round_keys.now start cipher.now) out.old }
{
    under_round_keys::<Deciphering>(round_keys, cipher, start, out)
}

// The start block of a chain, after the tests of the text's length and of its own; the limit is tested behind them.
#[tactic(auto, using(crate::proofs::Numbers::uneven, crate::proofs::Numbers::other_start, crate::proofs::Numbers::past_limit, crate::proofs::Numbers::within_limit))]
fn start_block(text: usize, start: &[u8]) -> Result<[u8; 16], Refusal>
    ensures number { number result ≡ lengths_number text (length start.now) }
    ensures block { IfOk result (λ block. block ≡ start.now) }
{
    if text % 16 != 0 {
        return Err(Refusal::TextLength);
    }
    let Ok(block) = start.try_into() else {
        return Err(Refusal::StartLength);
    };
    if text / 16 > MAX_BLOCKS {
        return Err(Refusal::TooMany);
    }
    Ok(block)
}

// The tests in their order, and then the chain under the key's round keys: no key is set up for what is refused.
fn under_key<W: Way>(key: &[u8], bytes: &[u8], start: &[u8], out: &mut [u8]) -> Result<(), Refusal>
    ensures number { number result ≡ chain_number (length key.now) (length bytes.now) (length start.now) (length out.old) }
    ensures written { out.new ≡ left (chain_number (length key.now) (length bytes.now) (length start.now) (length out.old)) (W.chained (schedule key.now) start.now bytes.now) out.old }
{
    Serpent::check_key(key.len())?;
    let start = start_block(bytes.len(), start)?;
    if out.len() < bytes.len() {
        return Err(Refusal::OutShort);
    }
    let cipher = Serpent::new_from_slice(key)?;
    under_round_keys::<W>(&cipher.round_keys, bytes, start, out)
}

// A text enciphered under a key, into the first bytes of `out`.
pub fn encrypt_chain(key: &[u8], text: &[u8], start: &[u8], out: &mut [u8]) -> Result<(), Refusal>
    ensures number { number result ≡ chain_number (length key.now) (length text.now) (length start.now) (length out.old) }
    ensures written { out.new ≡ encrypted_chain key.now text.now start.now out.old }
{
    under_key::<Enciphering>(key, text, start, out)
}

// Cipher bytes deciphered under a key, into the first bytes of `out`.
pub fn decrypt_chain(key: &[u8], cipher: &[u8], start: &[u8], out: &mut [u8]) -> Result<(), Refusal>
    ensures number { number result ≡ chain_number (length key.now) (length cipher.now) (length start.now) (length out.old) }
    ensures written { out.new ≡ decrypted_chain key.now cipher.now start.now out.old }
{
    under_key::<Deciphering>(key, cipher, start, out)
}
