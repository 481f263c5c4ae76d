// The path machine: the rows that come next, with speed, tempo and card start. It works below the channels and never
// reads their sound.
#![tactic(auto)]

pub mod loops;
pub mod machine;
pub mod orders;
pub mod scan;
