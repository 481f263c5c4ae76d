#![tactic(auto)]

pub mod answer;
pub mod working;
