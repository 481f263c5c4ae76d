// The functions by their numbers in the list.
use crate::input::Misread;
use lomqashe::{
    lomqashe_head_step, lomqashe_is_closed, lomqashe_line, lomqashe_measure, lomqashe_open,
    lomqashe_open_closed, lomqashe_read, lomqashe_restore, lomqashe_section, lomqashe_store,
    lomqashe_strikes,
};
use std::fmt;

#[derive(Clone, Copy, Debug, PartialEq, Eq)]
pub enum Function {
    Measure = 1,
    Read = 2,
    Open = 3,
    Section = 4,
    Strikes = 5,
    Line = 6,
    IsClosed = 7,
    OpenClosed = 8,
    HeadStep = 9,
    Store = 10,
    Restore = 11,
}

// In the order of their numbers.
pub const FUNCTIONS: [Function; 11] = [
    Function::Measure,
    Function::Read,
    Function::Open,
    Function::Section,
    Function::Strikes,
    Function::Line,
    Function::IsClosed,
    Function::OpenClosed,
    Function::HeadStep,
    Function::Store,
    Function::Restore,
];

impl TryFrom<u32> for Function {
    type Error = Misread;

    fn try_from(number: u32) -> Result<Function, Misread> {
        match number {
            1 => Ok(Function::Measure),
            2 => Ok(Function::Read),
            3 => Ok(Function::Open),
            4 => Ok(Function::Section),
            5 => Ok(Function::Strikes),
            6 => Ok(Function::Line),
            7 => Ok(Function::IsClosed),
            8 => Ok(Function::OpenClosed),
            9 => Ok(Function::HeadStep),
            10 => Ok(Function::Store),
            11 => Ok(Function::Restore),
            _ => Err(Misread),
        }
    }
}

impl fmt::Display for Function {
    fn fmt<W: fmt::Write>(&self, f: &mut fmt::Formatter<W>) -> fmt::Result {
        let name = match self {
            Function::Measure => "measure",
            Function::Read => "read",
            Function::Open => "open",
            Function::Section => "section",
            Function::Strikes => "strikes",
            Function::Line => "line",
            Function::IsClosed => "is_closed",
            Function::OpenClosed => "open_closed",
            Function::HeadStep => "head_step",
            Function::Store => "store",
            Function::Restore => "restore",
        };
        f.write_str(name)
    }
}

// What a call is lent: the slices of the function, in the order of its arguments. (An array of `&mut` gets no proof.)
pub struct Lent<'a> {
    pub s0: &'a mut [u8],
    pub s1: &'a mut [u8],
    pub s2: &'a mut [u8],
    pub s3: &'a mut [u8],
    pub s4: &'a mut [u8],
}

impl Function {
    // One `match`: the functions differ in their parameters.
    pub fn call(self, number: u32, lent: Lent) -> u32 {
        let Lent { s0, s1, s2, s3, s4 } = lent;
        match self {
            Function::Measure => lomqashe_measure(s0, s1),
            Function::Read => lomqashe_read(s0, number, s1, s2, s3, s4),
            Function::Open => lomqashe_open(s0, s1, s2, s3, s4),
            Function::Section => lomqashe_section(s0, s1, s2, s3, number, s4),
            Function::Strikes => lomqashe_strikes(s0, s1),
            Function::Line => lomqashe_line(s0, s1),
            Function::IsClosed => lomqashe_is_closed(s0, s1, s2),
            Function::OpenClosed => lomqashe_open_closed(s0, s1, s2, s3, s4),
            Function::HeadStep => lomqashe_head_step(s0, number, s1),
            Function::Store => lomqashe_store(s0, number, s1),
            Function::Restore => lomqashe_restore(s0, number, s1),
        }
    }
}
