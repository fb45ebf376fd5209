// Serpent's boxes as word circuits, and its linear transform (src/bitslice.rs of the Rust).
#![tactic(auto)]

ghost use Rattle.std.specs.Prelude.{◌≡◌, IfOk};
ghost use Rattle.answers.specs.Numbers.{number};
ghost use Rattle.bitslice.specs.Boxes.{box_on, box, inverse, box_words, box_inv_words};
ghost use Rattle.bitslice.specs.Chosen.{box_number};
ghost use Rattle.bitslice.specs.Linear.{linear_transform, linear_transform_inv};

use answers::Refusal;
use words::{Words, rotate_left, rotate_right};

// The linear transform of four words.
pub fn linear_transform(mut words: Words) -> Words
    ensures { result ≡ linear_transform words }
{
    words[0] = rotate_left(words[0], 13);
    words[2] = rotate_left(words[2], 3);
    words[1] ^= words[0] ^ words[2];
    words[3] = words[3] ^ words[2] ^ (words[0] << 3); // three high bits drop out
    words[1] = rotate_left(words[1], 1);
    words[3] = rotate_left(words[3], 7);
    words[0] ^= words[1] ^ words[3];
    words[2] = words[2] ^ words[3] ^ (words[1] << 7); // seven high bits drop out
    words[0] = rotate_left(words[0], 5);
    words[2] = rotate_left(words[2], 22);
    words
}

// Its steps undone, in reverse order.
pub fn linear_transform_inv(mut words: Words) -> Words
    ensures { result ≡ linear_transform_inv words }
{
    words[2] = rotate_right(words[2], 22);
    words[0] = rotate_right(words[0], 5);
    words[2] = words[2] ^ words[3] ^ (words[1] << 7);
    words[0] ^= words[1] ^ words[3];
    words[3] = rotate_right(words[3], 7);
    words[1] = rotate_right(words[1], 1);
    words[3] = words[3] ^ words[2] ^ (words[0] << 3);
    words[1] ^= words[0] ^ words[2];
    words[2] = rotate_right(words[2], 3);
    words[0] = rotate_right(words[0], 13);
    words
}

// Box index, reduced by 8, on four words.
#[inline(always)]
#[tactic(auto, using(crate::proofs::Arms::always))]
pub fn apply_s(index: usize, words: Words) -> Result<Words, Refusal>
    ensures number { number result ≡ box_number index }
    ensures words { IfOk result (λ w. w ≡ box_words index words) }
{
    match index % 8 {
        0 => Ok(sbox_e0(words)),
        1 => Ok(sbox_e1(words)),
        2 => Ok(sbox_e2(words)),
        3 => Ok(sbox_e3(words)),
        4 => Ok(sbox_e4(words)),
        5 => Ok(sbox_e5(words)),
        6 => Ok(sbox_e6(words)),
        7 => Ok(sbox_e7(words)),
        _ => Err(Refusal::NoBox),
    }
}

// The inverse of box index, reduced by 8, on four words.
#[inline(always)]
#[tactic(auto, using(crate::proofs::Arms::always))]
pub fn apply_s_inv(index: usize, words: Words) -> Result<Words, Refusal>
    ensures number { number result ≡ box_number index }
    ensures words { IfOk result (λ w. w ≡ box_inv_words index words) }
{
    match index % 8 {
        0 => Ok(sbox_d0(words)),
        1 => Ok(sbox_d1(words)),
        2 => Ok(sbox_d2(words)),
        3 => Ok(sbox_d3(words)),
        4 => Ok(sbox_d4(words)),
        5 => Ok(sbox_d5(words)),
        6 => Ok(sbox_d6(words)),
        7 => Ok(sbox_d7(words)),
        _ => Err(Refusal::NoBox),
    }
}

// Box i, reduced by 8, and its inverse: there is one for every i.
#[inline(always)]
#[tactic(auto, using(crate::proofs::Arms::always))]
pub fn round_box(i: usize, words: Words) -> Words
    ensures { result ≡ box_words i words }
{
    apply_s(i, words).unwrap_or(words)
}

#[inline(always)]
#[tactic(auto, using(crate::proofs::Arms::always))]
pub fn round_box_inv(i: usize, words: Words) -> Words
    ensures { result ≡ box_inv_words i words }
{
    apply_s_inv(i, words).unwrap_or(words)
}

fn sbox_e0(words: Words) -> Words
    ensures { result ≡ box_on (box 0) words }
{
    let mut w1 = words[0];
    let mut w2 = words[1];
    let mut w3 = words[2];
    let mut w4 = words[3];
    w4 ^= w1;
    let mut t0 = w2;
    w2 &= w4;
    t0 ^= w3;
    w2 ^= w1;
    w1 |= w4;
    w1 ^= t0;
    t0 ^= w4;
    w4 ^= w3;
    w3 |= w2;
    w3 ^= t0;
    t0 = !t0;
    t0 |= w2;
    w2 ^= w4;
    w2 ^= t0;
    w4 |= w1;
    w2 ^= w4;
    t0 ^= w4;
    [w2, t0, w3, w1]
}

fn sbox_e1(words: Words) -> Words
    ensures { result ≡ box_on (box 1) words }
{
    let mut w1 = words[0];
    let mut w2 = words[1];
    let mut w3 = words[2];
    let mut w4 = words[3];
    w1 = !w1;
    w3 = !w3;
    let mut t0 = w1;
    w1 &= w2;
    w3 ^= w1;
    w1 |= w4;
    w4 ^= w3;
    w2 ^= w1;
    w1 ^= t0;
    t0 |= w2;
    w2 ^= w4;
    w3 |= w1;
    w3 &= t0;
    w1 ^= w2;
    w2 &= w3;
    w2 ^= w1;
    w1 &= w3;
    t0 ^= w1;
    [w3, t0, w4, w2]
}

fn sbox_e2(words: Words) -> Words
    ensures { result ≡ box_on (box 2) words }
{
    let mut w1 = words[0];
    let mut w2 = words[1];
    let mut w3 = words[2];
    let mut w4 = words[3];
    let mut t0 = w1;
    w1 &= w3;
    w1 ^= w4;
    w3 ^= w2;
    w3 ^= w1;
    w4 |= t0;
    w4 ^= w2;
    t0 ^= w3;
    w2 = w4;
    w4 |= t0;
    w4 ^= w1;
    w1 &= w2;
    t0 ^= w1;
    w2 ^= w4;
    w2 ^= t0;
    t0 = !t0;
    [w3, w4, w2, t0]
}

fn sbox_e3(words: Words) -> Words
    ensures { result ≡ box_on (box 3) words }
{
    let mut w1 = words[0];
    let mut w2 = words[1];
    let mut w3 = words[2];
    let mut w4 = words[3];
    let mut t0 = w1;
    w1 |= w4;
    w4 ^= w2;
    w2 &= t0;
    t0 ^= w3;
    w3 ^= w4;
    w4 &= w1;
    t0 |= w2;
    w4 ^= t0;
    w1 ^= w2;
    t0 &= w1;
    w2 ^= w4;
    t0 ^= w3;
    w2 |= w1;
    w2 ^= w3;
    w1 ^= w4;
    w3 = w2;
    w2 |= w4;
    w1 ^= w2;
    [w1, w3, w4, t0]
}

fn sbox_e4(words: Words) -> Words
    ensures { result ≡ box_on (box 4) words }
{
    let mut w1 = words[0];
    let mut w2 = words[1];
    let mut w3 = words[2];
    let mut w4 = words[3];
    w2 ^= w4;
    w4 = !w4;
    w3 ^= w4;
    w4 ^= w1;
    let mut t0 = w2;
    w2 &= w4;
    w2 ^= w3;
    t0 ^= w4;
    w1 ^= t0;
    w3 &= t0;
    w3 ^= w1;
    w1 &= w2;
    w4 ^= w1;
    t0 |= w2;
    t0 ^= w1;
    w1 |= w4;
    w1 ^= w3;
    w3 &= w4;
    w1 = !w1;
    t0 ^= w3;
    [w2, t0, w1, w4]
}

fn sbox_e5(words: Words) -> Words
    ensures { result ≡ box_on (box 5) words }
{
    let mut w1 = words[0];
    let mut w2 = words[1];
    let mut w3 = words[2];
    let mut w4 = words[3];
    w1 ^= w2;
    w2 ^= w4;
    w4 = !w4;
    let mut t0 = w2;
    w2 &= w1;
    w3 ^= w4;
    w2 ^= w3;
    w3 |= t0;
    t0 ^= w4;
    w4 &= w2;
    w4 ^= w1;
    t0 ^= w2;
    t0 ^= w3;
    w3 ^= w1;
    w1 &= w4;
    w3 = !w3;
    w1 ^= t0;
    t0 |= w4;
    t0 ^= w3;
    w3 = w1;
    w1 = w2;
    w2 = w4;
    w4 = t0;
    [w1, w2, w3, w4]
}

fn sbox_e6(words: Words) -> Words
    ensures { result ≡ box_on (box 6) words }
{
    let mut w1 = words[0];
    let mut w2 = words[1];
    let mut w3 = words[2];
    let mut w4 = words[3];
    w3 = !w3;
    let mut t0 = w4;
    w4 &= w1;
    w1 ^= t0;
    w4 ^= w3;
    w3 |= t0;
    w2 ^= w4;
    w3 ^= w1;
    w1 |= w2;
    w3 ^= w2;
    t0 ^= w1;
    w1 |= w4;
    w1 ^= w3;
    t0 ^= w4;
    t0 ^= w1;
    w4 = !w4;
    w3 &= t0;
    w4 ^= w3;
    w3 = t0;
    [w1, w2, w3, w4]
}

fn sbox_e7(words: Words) -> Words
    ensures { result ≡ box_on (box 7) words }
{
    let mut w1 = words[0];
    let mut w2 = words[1];
    let mut w3 = words[2];
    let mut w4 = words[3];
    let mut t0 = w2;
    w2 |= w3;
    w2 ^= w4;
    t0 ^= w3;
    w3 ^= w2;
    w4 |= t0;
    w4 &= w1;
    t0 ^= w3;
    w4 ^= w2;
    w2 |= t0;
    w2 ^= w1;
    w1 |= t0;
    w1 ^= w3;
    w2 ^= t0;
    w3 ^= w2;
    w2 &= w1;
    w2 ^= t0;
    w3 = !w3;
    w3 |= w1;
    t0 ^= w3;
    [t0, w4, w2, w1]
}

fn sbox_d0(words: Words) -> Words
    ensures { result ≡ box_on (inverse (box 0)) words }
{
    let mut w1 = words[0];
    let mut w2 = words[1];
    let mut w3 = words[2];
    let mut w4 = words[3];
    w3 = !w3;
    let mut t0 = w2;
    w2 |= w1;
    t0 = !t0;
    w2 ^= w3;
    w3 |= t0;
    w2 ^= w4;
    w1 ^= t0;
    w3 ^= w1;
    w1 &= w4;
    t0 ^= w1;
    w1 |= w2;
    w1 ^= w3;
    w4 ^= t0;
    w3 ^= w2;
    w4 ^= w1;
    w4 ^= w2;
    w3 &= w4;
    t0 ^= w3;
    [w1, t0, w2, w4]
}

fn sbox_d1(words: Words) -> Words
    ensures { result ≡ box_on (inverse (box 1)) words }
{
    let mut w1 = words[0];
    let mut w2 = words[1];
    let mut w3 = words[2];
    let mut w4 = words[3];
    let mut t0 = w2;
    w2 ^= w4;
    w4 &= w2;
    t0 ^= w3;
    w4 ^= w1;
    w1 |= w2;
    w3 ^= w4;
    w1 ^= t0;
    w1 |= w3;
    w2 ^= w4;
    w1 ^= w2;
    w2 |= w4;
    w2 ^= w1;
    t0 = !t0;
    t0 ^= w2;
    w2 |= w1;
    w2 ^= w1;
    w2 |= t0;
    w4 ^= w2;
    [t0, w1, w4, w3]
}

fn sbox_d2(words: Words) -> Words
    ensures { result ≡ box_on (inverse (box 2)) words }
{
    let mut w1 = words[0];
    let mut w2 = words[1];
    let mut w3 = words[2];
    let mut w4 = words[3];
    w3 ^= w4;
    w4 ^= w1;
    let mut t0 = w4;
    w4 &= w3;
    w4 ^= w2;
    w2 |= w3;
    w2 ^= t0;
    t0 &= w4;
    w3 ^= w4;
    t0 &= w1;
    t0 ^= w3;
    w3 &= w2;
    w3 |= w1;
    w4 = !w4;
    w3 ^= w4;
    w1 ^= w4;
    w1 &= w2;
    w4 ^= t0;
    w4 ^= w1;
    [w2, t0, w3, w4]
}

fn sbox_d3(words: Words) -> Words
    ensures { result ≡ box_on (inverse (box 3)) words }
{
    let mut w1 = words[0];
    let mut w2 = words[1];
    let mut w3 = words[2];
    let mut w4 = words[3];
    let mut t0 = w3;
    w3 ^= w2;
    w1 ^= w3;
    t0 &= w3;
    t0 ^= w1;
    w1 &= w2;
    w2 ^= w4;
    w4 |= t0;
    w3 ^= w4;
    w1 ^= w4;
    w2 ^= t0;
    w4 &= w3;
    w4 ^= w2;
    w2 ^= w1;
    w2 |= w3;
    w1 ^= w4;
    w2 ^= t0;
    w1 ^= w2;
    [w3, w2, w4, w1]
}

fn sbox_d4(words: Words) -> Words
    ensures { result ≡ box_on (inverse (box 4)) words }
{
    let mut w1 = words[0];
    let mut w2 = words[1];
    let mut w3 = words[2];
    let mut w4 = words[3];
    let mut t0 = w3;
    w3 &= w4;
    w3 ^= w2;
    w2 |= w4;
    w2 &= w1;
    t0 ^= w3;
    t0 ^= w2;
    w2 &= w3;
    w1 = !w1;
    w4 ^= t0;
    w2 ^= w4;
    w4 &= w1;
    w4 ^= w3;
    w1 ^= w2;
    w3 &= w1;
    w4 ^= w1;
    w3 ^= t0;
    w3 |= w4;
    w4 ^= w1;
    w3 ^= w2;
    [w1, w4, w3, t0]
}

fn sbox_d5(words: Words) -> Words
    ensures { result ≡ box_on (inverse (box 5)) words }
{
    let w1 = words[0];
    let mut w2 = words[1];
    let mut w3 = words[2];
    let mut w4 = words[3];
    w2 = !w2;
    let mut t0 = w4;
    w3 ^= w2;
    w4 |= w1;
    w4 ^= w3;
    w3 |= w2;
    w3 &= w1;
    t0 ^= w4;
    w3 ^= t0;
    t0 |= w1;
    t0 ^= w2;
    w2 &= w3;
    w2 ^= w4;
    t0 ^= w3;
    w4 &= t0;
    t0 ^= w2;
    w4 ^= t0;
    t0 = !t0;
    w4 ^= w1;
    [w2, t0, w4, w3]
}

fn sbox_d6(words: Words) -> Words
    ensures { result ≡ box_on (inverse (box 6)) words }
{
    let mut w1 = words[0];
    let mut w2 = words[1];
    let mut w3 = words[2];
    let mut w4 = words[3];
    w1 ^= w3;
    let mut t0 = w3;
    w3 &= w1;
    t0 ^= w4;
    w3 = !w3;
    w4 ^= w2;
    w3 ^= w4;
    t0 |= w1;
    w1 ^= w3;
    w4 ^= t0;
    t0 ^= w2;
    w2 &= w4;
    w2 ^= w1;
    w1 ^= w4;
    w1 |= w3;
    w4 ^= w2;
    t0 ^= w1;
    [w2, w3, t0, w4]
}

fn sbox_d7(words: Words) -> Words
    ensures { result ≡ box_on (inverse (box 7)) words }
{
    let mut w1 = words[0];
    let mut w2 = words[1];
    let mut w3 = words[2];
    let mut w4 = words[3];
    let mut t0 = w3;
    w3 ^= w1;
    w1 &= w4;
    t0 |= w4;
    w3 = !w3;
    w4 ^= w2;
    w2 |= w1;
    w1 ^= w3;
    w3 &= t0;
    w4 &= t0;
    w2 ^= w3;
    w3 ^= w1;
    w1 |= w3;
    t0 ^= w2;
    w1 ^= w4;
    w4 ^= t0;
    t0 |= w1;
    w4 ^= w3;
    t0 ^= w3;
    [w4, w1, w2, t0]
}
