// Room for what is read, and reading it.
ghost use Rattle.std.specs.Prelude.{◌≡◌, ◌+◌, ◌<◌, ◌≤◌, length};

use std::io;
use tune::numbers::u32_at;

// The list ends too soon, cannot be read, or says what cannot be.
#[derive(Clone, Copy, Debug, PartialEq, Eq)]
pub struct Misread;

impl From<io::Error> for Misread {
    fn from(_e: io::Error) -> Misread {
        Misread
    }
}

// The contract gives the length alone: the zeros would stand in each goal.
pub fn room<const N: usize>() -> [u8; N]
    ensures { length result ≡ N }
{
    [0; N]
}

// A number as a length or a place.
pub fn size_at(bytes: &[u8], at: usize) -> usize
    requires { at + 4 ≤ length bytes.now }
    ensures { result < 4294967296 }
{
    u32_at(bytes, at) as usize
}
