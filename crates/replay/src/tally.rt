// For each function the cases, and those that differ.
use crate::calls::{FUNCTIONS, Function};
use std::io;

#[derive(Clone, Copy, Debug, PartialEq, Eq)]
pub struct Count {
    cases: u64,
    differences: u64,
}

#[derive(Clone, Copy)]
pub struct Tally {
    counts: [Count; 11],
}

impl Tally {
    pub fn new() -> Tally {
        Tally {
            counts: [Count {
                cases: 0,
                differences: 0,
            }; 11],
        }
    }

    // Counts a case, and a difference where it is not the same.
    pub fn add(&mut self, function: Function, same: bool) {
        let count = &mut self.counts[function as usize - 1];
        count.cases = count.cases.wrapping_add(1);
        count.differences = count.differences.wrapping_add(u64::from(!same));
    }

    // A line for each function.
    pub fn print(&self, rt: &impl Print) -> io::Result<()> {
        for (function, count) in FUNCTIONS.iter().zip(self.counts.iter()) {
            println!(rt;
                "{function}: {} cases, {} differences",
                count.cases, count.differences
            )?;
        }
        Ok(())
    }
}
