// Sixteen blocks side by side: lane j is words j, j + 16, j + 32 and j + 48, so that one step does the same to all.
ghost use Rattle.std.specs.Prelude.{◌≡◌, ◌+◌, ◌*◌, ◌<◌};
ghost use Rattle.serpent.specs.Block.{unround, decrypt_words};
ghost use Rattle.fast.specs.Turns.{unlast, unmixed, unmixed_last, unrounds_from};
ghost use Rattle.fast.specs.Lanes.{lane, put_lane, EachLane, Lanes, Loaded, lane_bytes};

use crate::rounds::{round_key, unmixed, unmixed_last};
use state::{read_words, write_words};
use std::array;
use words::Words;
use words::blocks::{block_at, put_block};

fn lane(w: &[u32; 64], j: usize) -> Words
    requires { j < 16 }
    ensures { result ≡ lane w.now j }
{
    array::from_fn(|i| w[j + 16 * i])
}

#[tactic(auto, using(crate::proofs::Sixteen::words_put))]
fn put_lane(w: &mut [u32; 64], j: usize, x: Words)
    requires { j < 16 }
    ensures { w.new ≡ put_lane w.old j x }
{
    for (i, word) in x.iter().enumerate() {
        w[j + 16 * i] = *word;
    }
}

// Sixteen blocks as words, a lane each.
#[tactic(auto, using(crate::proofs::Sixteen::load_lane))]
pub fn load(cipher: &[u8]) -> [u32; 64]
    ensures { Loaded cipher.now result 16 }
{
    let mut w = [0u32; 64];
    for j in 0usize..16 {
        let x = read_words(block_at(cipher, j * 16));
        put_lane(&mut w, j, x);
    }
    w
}

// The lanes as bytes, one after the other.
pub fn store(w: &[u32; 64]) -> [u8; 256]
    ensures { result ≡ lane_bytes w.now 16 }
{
    let mut out = [0u8; 256];
    for j in 0usize..16 {
        let x = write_words(lane(w, j));
        put_block(x, &mut out, j * 16);
    }
    out
}

// One step on each lane.
#[inline(always)]
fn each_lane<F: Fn(Words) -> Words>(w: &mut [u32; 64], step: F)
    requires { F.IsAlwaysCallable step }
    ensures { EachLane (F.post step) w.old w.new }
{
    for j in 0..16 {
        let x = lane(w, j);
        let y = step(x);
        put_lane(w, j, y);
    }
}

// Two rounds at a time, since taking a lane up and putting it down costs too.

// Rounds 8 t + UPPER and 8 t + LOWER undone on each lane.
fn undo_pair<const UPPER: usize, const LOWER: usize>(keys: &[u32; 132], t: usize, w: &mut [u32; 64])
    requires { (t < 4) × (UPPER < 8) × (UPPER ≡ LOWER + 1) }
    ensures { Lanes (unrounds_from keys.now (8 * t + LOWER) 2) w.old w.new }
{
    let upper = round_key(keys, 8 * t + UPPER);
    let lower = round_key(keys, 8 * t + LOWER);
    let step = |x: Words| -> Words
        ensures { result ≡ unmixed LOWER lower (unmixed UPPER upper x) }
    { unmixed(LOWER, lower, unmixed(UPPER, upper, x)) };
    each_lane(w, step);
}

// Rounds 31 and 30 undone on each lane.
fn undo_last(keys: &[u32; 132], w: &mut [u32; 64])
    ensures { Lanes (λ x. unround keys.now 30 (unlast keys.now x)) w.old w.new }
{
    let after = round_key(keys, 32);
    let upper = round_key(keys, 31);
    let lower = round_key(keys, 30);
    let step = |x: Words| -> Words
        ensures { result ≡ unmixed 30 lower (unmixed_last upper after x) }
    { unmixed(30, lower, unmixed_last(upper, after, x)) };
    each_lane(w, step);
}

// Rounds 8 t + 5 to 8 t undone on each lane.
fn undo_six(keys: &[u32; 132], t: usize, w: &mut [u32; 64])
    requires { t < 4 }
    ensures { Lanes (unrounds_from keys.now (8 * t) 6) w.old w.new }
{
    undo_pair::<5, 4>(keys, t, w);
    undo_pair::<3, 2>(keys, t, w);
    undo_pair::<1, 0>(keys, t, w);
}

// The 32 rounds undone on each lane.
pub fn decrypt_each(keys: &[u32; 132], w: &mut [u32; 64])
    ensures { Lanes (decrypt_words keys.now) w.old w.new }
{
    undo_last(keys, w);
    undo_six(keys, 3, w);
    for t in (0usize..3).rev() {
        undo_pair::<7, 6>(keys, t, w);
        undo_six(keys, t, w);
    }
}
