// Open and Section: the two machines side by side, and the records that they write.
#![tactic(auto)]

pub mod open;
pub mod record;
pub mod rules;
pub mod state;
pub mod walk;
