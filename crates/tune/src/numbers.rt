// Numbers of several bytes, the low byte first, and the two halves of a byte.
ghost use Rattle.std.specs.Prelude.{◌≡◌, ◌+◌, ◌/◌, ◌%◌, ◌≤◌, ◌<◌, length, take, drop};
ghost use Rattle.tune.specs.Numbers.{little_at};

// The N bytes at a place.
pub fn bytes_at<const N: usize>(s: &[u8], at: usize) -> [u8; N]
    requires { at + N ≤ length s.now }
    ensures { result ≡ take N (drop at s.now) }
{
    *s[at..at + N].as_array().unwrap()
}

// One reader for each width, which says in `little_at`'s words what the library's conversion gives.
pub fn u16_at(s: &[u8], at: usize) -> usize
    requires { at + 2 ≤ length s.now }
    ensures { (result ≡ little_at 2 s.now at) × (result < 65536) }
{
    usize::from(u16::from_le_bytes(bytes_at(s, at)))
}

pub fn u32_at(s: &[u8], at: usize) -> u32
    requires { at + 4 ≤ length s.now }
    ensures { result ≡ little_at 4 s.now at }
{
    u32::from_le_bytes(bytes_at(s, at))
}

pub fn u64_at(s: &[u8], at: usize) -> u64
    requires { at + 8 ≤ length s.now }
    ensures { result ≡ little_at 8 s.now at }
{
    u64::from_le_bytes(bytes_at(s, at))
}

pub fn high_nibble(b: u8) -> u8
    ensures { (result ≡ b / 16) × (result < 16) }
{
    b >> 4
}

pub fn low_nibble(b: u8) -> u8
    ensures { (result ≡ b % 16) × (result < 16) }
{
    b & 15
}
