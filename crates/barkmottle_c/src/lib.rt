// The exports of crate barkmottle for a host in C, under the same names; include/barkmottle.h declares them. A slice is a pointer and then a length.
#![tactic(auto)]

pub mod cipher;
pub mod events;
pub mod log;
pub mod searches;
