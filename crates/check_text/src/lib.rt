// What the test programs share: the lines of a file, events as bytes, and filled buffers.
#![tactic(auto)]

pub mod events;
pub mod hex;
pub mod lines;
pub mod pattern;
