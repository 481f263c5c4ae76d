// From record to paper: the struck channels of a record, and its line of the sheet.
#![tactic(auto)]

pub mod line;
pub mod record;
pub mod strikes;
