// The tables that a call is lent and the opening values of a tune: their sizes, their rules, and their parts by value.
#![tactic(auto)]

pub mod cells;
pub mod numbers;
pub mod opening;
pub mod parts;
pub mod rules;
pub mod samples;
pub mod sizes;
pub mod transposition;
