// The original Rust, transcribed; its code is one call, whose promise is that Section does the same.
#![tactic(auto)]

pub mod witness;
