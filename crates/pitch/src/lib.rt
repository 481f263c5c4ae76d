// Pitch: all float work of the port. Periods, the frequency of a note, fine slides, the Amiga limits and the sample
// offset.
#![tactic(auto)]

pub mod finetune;
pub mod frequency;
pub mod limits;
pub mod offset;
pub mod periods;
pub mod slides;
