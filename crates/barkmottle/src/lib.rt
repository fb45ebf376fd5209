// What a host in C calls, one thin call each. Crate barkmottle_c exports it.
#![tactic(auto)]

pub mod cipher;
pub mod events;
pub mod log;
pub mod searches;
