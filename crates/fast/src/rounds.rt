// Eight rounds a turn, written out: the box of each is known when it is compiled, so nothing is left to choose while a
// block goes through.
ghost use Rattle.std.specs.Prelude.{◌≡◌, cond, ◌+◌, ◌*◌, ◌≤◌, ◌<◌, eqb};
ghost use Rattle.words.specs.Sized.{four};
ghost use Rattle.serpent.specs.Block.{round, unround, encrypt_words, decrypt_words};
ghost use Rattle.fast.specs.Turns.{last, unlast, unmixed, unmixed_last, rounds_from, unrounds_from};

use bitslice::{linear_transform, linear_transform_inv};
use serpent::{s_box, s_box_inv};
use state::xor;
use std::array;
use words::Words;

// Round key i.
pub fn round_key(keys: &[u32; 132], i: usize) -> Words
    requires { i ≤ 32 }
    ensures { result ≡ four keys.now (4 * i) }
{
    array::from_fn(|j| keys[4 * i + j])
}

// Round i.
#[tactic(auto, unfolding(serpent::specs::Block::round, serpent::specs::Block::mix))]
#[inline(always)]
fn round(keys: &[u32; 132], i: usize, b: Words) -> Words
    requires { i ≤ 31 }
    ensures { result ≡ round keys.now i b }
{
    linear_transform(s_box(i, xor(b, round_key(keys, i))))
}

// Round 31.
#[tactic(auto, unfolding(crate::specs::Turns::last, serpent::specs::Block::mix))]
fn last(keys: &[u32; 132], b: Words) -> Words
    ensures { result ≡ last keys.now b }
{
    let s = s_box(31, xor(b, round_key(keys, 31)));
    xor(s, round_key(keys, 32))
}

// Rounds i to i + 6.
#[tactic(auto, unfolding(crate::specs::Turns::rounds_from))]
fn seven(keys: &[u32; 132], i: usize, b: Words) -> Words
    requires { i ≤ 24 }
    ensures { result ≡ rounds_from keys.now i 7 b }
{
    let b = round(keys, i, b);
    let b = round(keys, i + 1, b);
    let b = round(keys, i + 2, b);
    let b = round(keys, i + 3, b);
    let b = round(keys, i + 4, b);
    let b = round(keys, i + 5, b);
    round(keys, i + 6, b)
}

// Round 8 t + 7.
fn eighth(keys: &[u32; 132], t: usize, b: Words) -> Words
    requires { t < 4 }
    ensures { result ≡ cond (eqb t 3) (last keys.now b) (round keys.now (8 * t + 7) b) }
{
    if t == 3 {
        last(keys, b)
    } else {
        round(keys, 8 * t + 7, b)
    }
}

#[tactic(auto, using(crate::proofs::Groups::turn), unfolding(serpent::specs::Block::rounds))]
// The 32 rounds, and the 32 undone.
pub fn encrypt_words(keys: &[u32; 132], b: Words) -> Words
    ensures { result ≡ encrypt_words keys.now b }
{
    let mut x = b;
    for t in 0..4 {
        let y = seven(keys, 8 * t, x);
        let z = eighth(keys, t, y);
        x = z;
    }
    x
}

// A round with box n and round key k undone.
#[inline(always)]
pub fn unmixed(n: usize, k: Words, b: Words) -> Words
    ensures { result ≡ unmixed n k b }
{
    xor(s_box_inv(n, linear_transform_inv(b)), k)
}

// Round 31 with round keys k and after undone.
pub fn unmixed_last(k: Words, after: Words, b: Words) -> Words
    ensures { result ≡ unmixed_last k after b }
{
    xor(s_box_inv(31, xor(b, after)), k)
}

// Round i undone.
#[tactic(auto, unfolding(serpent::specs::Block::unround, serpent::specs::Block::mix))]
#[inline(always)]
fn unround(keys: &[u32; 132], i: usize, b: Words) -> Words
    requires { i ≤ 31 }
    ensures { result ≡ unround keys.now i b }
{
    unmixed(i, round_key(keys, i), b)
}

// Round 31 undone.
#[tactic(auto, unfolding(crate::specs::Turns::unlast, serpent::specs::Block::mix))]
fn unlast(keys: &[u32; 132], b: Words) -> Words
    ensures { result ≡ unlast keys.now b }
{
    let k = round_key(keys, 31);
    let after = round_key(keys, 32);
    unmixed_last(k, after, b)
}

// Rounds i + 6 to i undone.
#[tactic(auto, unfolding(crate::specs::Turns::unrounds_from))]
fn unseven(keys: &[u32; 132], i: usize, b: Words) -> Words
    requires { i ≤ 24 }
    ensures { result ≡ unrounds_from keys.now i 7 b }
{
    let b = unround(keys, i + 6, b);
    let b = unround(keys, i + 5, b);
    let b = unround(keys, i + 4, b);
    let b = unround(keys, i + 3, b);
    let b = unround(keys, i + 2, b);
    let b = unround(keys, i + 1, b);
    unround(keys, i, b)
}

// Round 8 t + 7 undone.
fn uneighth(keys: &[u32; 132], t: usize, b: Words) -> Words
    requires { t < 4 }
    ensures { result ≡ cond (eqb t 3) (unlast keys.now b) (unround keys.now (8 * t + 7) b) }
{
    if t == 3 {
        unlast(keys, b)
    } else {
        unround(keys, 8 * t + 7, b)
    }
}

pub fn decrypt_words(keys: &[u32; 132], b: Words) -> Words
    ensures { result ≡ decrypt_words keys.now b }
{
    let mut x = b;
    for t in (0usize..4).rev() {
        let y = uneighth(keys, t, x);
        let z = unseven(keys, 8 * t, y);
        x = z;
    }
    x
}
