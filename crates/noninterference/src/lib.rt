// A channel is untouched when the others are re-voiced.
#![tactic(auto)]

pub mod witness;
