// Channels: what the pipes do at a row, the other half of the Rust's `enter_row`.
#![tactic(auto)]

pub mod channels;
pub mod commands;
pub mod levels;
pub mod memory;
pub mod pitches;
pub mod play;
pub mod rest;
pub mod row;
pub mod state;
