// Takes an entry of a packed row apart.
ghost use Rattle.std.specs.Prelude.{◌≡◌, ◌+◌, ◌^◌, ◌≤◌, ◌<◌, eqb, length, get_or};
ghost use Rattle.laws.specs.Choice.{pick};
ghost use Rattle.laws.specs.Masks.{bit_of};
ghost use Rattle.packed.specs.Entry.{channel_of, entry_bytes, entry_cell};
ghost use Rattle.packed.specs.Entry as spec;

use tune::numbers::u64_at;

// The byte of the file at a place, 0 past its end.
pub fn byte_at(file: &[u8], at: usize) -> u8
    ensures { result ≡ get_or file.now at 0 }
{
    file.get(at).copied().unwrap_or(0)
}

// The same as a wider number: where the next byte stands is worked out from it, and widening costs a step each time.
pub fn wide_at(file: &[u8], at: usize) -> usize
    ensures { (result ≡ get_or file.now at 0) × (result < 256) }
{
    if at < file.len() {
        usize::from(file[at])
    } else {
        0
    }
}

// Bits 0 to 4 of an entry's first byte.
pub fn channel_of(b: usize) -> usize
    ensures { (result ≡ channel_of b) × (result < 32) }
{
    b & 31
}

// Bit k, 0 or 1.
pub fn bit_of(b: usize, k: u8) -> usize
    requires { k < 8 }
    ensures { (result ≡ bit_of b k) × (result < 2) }
{
    (b >> k) & 1
}

// How many bytes the entry with the first byte b takes.
pub fn entry_bytes(b: usize) -> usize
    requires { b < 256 }
    ensures { (result ≡ entry_bytes b) × (result < 7) }
{
    1 + bit_of(b, 5) * 2 + (b >> 6)
}

// 1 where the byte ends a row, else 0.
pub fn rows_ended(b: usize) -> usize
    ensures { (result ≡ pick (eqb b 0) 1 0) × (result < 2) }
{
    usize::from(b == 0)
}

// The byte of the file at a place where the bit is set, else what an unnamed cell has there.
fn named(bit: usize, file: &[u8], at: usize, unnamed: u8) -> u8
    ensures { result ≡ spec.named bit file.now at unnamed }
{
    if bit == 0 { unnamed } else { byte_at(file, at) }
}

// The cell that the entry at `at` gives, byte by byte: for the last entries of a file.
#[tactic(auto, unfolding(crate::specs::Entry::entry_cell))]
fn cell_by_bytes(file: &[u8], at: usize, b: usize) -> [u8; 5]
    requires { at + 5 < 2 ^ 64 }
    ensures { result ≡ entry_cell file.now at b }
{
    let note = bit_of(b, 5);
    let volume = bit_of(b, 6);
    let command = bit_of(b, 7);
    [
        named(note, file, at + 1, 255),
        named(note, file, at + 2, 0),
        named(volume, file, at + 1 + note * 2, 255),
        named(command, file, at + 1 + note * 2 + volume, 0),
        named(command, file, at + 2 + note * 2 + volume, 0),
    ]
}

// The first number where the bit is set, else the second: an `if` in each line of the cell would be no plainer.
fn either(bit: usize, set: u64, unset: u64) -> u64
    ensures { result ≡ pick (eqb bit 0) unset set }
{
    if bit == 0 { unset } else { set }
}

// The same from the eight bytes behind b, read as one number: what follows b is chosen from it without a branch.
fn cell_by_number(file: &[u8], at: usize, b: usize) -> [u8; 5]
    requires { at + 9 ≤ length file.now }
    ensures { result ≡ entry_cell file.now at b }
{
    let note = bit_of(b, 5);
    let volume = bit_of(b, 6);
    let command = bit_of(b, 7);
    let x = u64_at(file, at + 1);
    let n = either(note, x, 255);
    let y = either(note, x / 65536, x);
    let v = either(volume, y, 255);
    let z = either(volume, y / 256, y);
    let c = either(command, z, 0);
    [
        (n % 256) as u8,
        (n / 256 % 256) as u8,
        (v % 256) as u8,
        (c % 256) as u8,
        (c / 256 % 256) as u8,
    ]
}

// The cell that the entry at `at` gives, whose first byte is b.
pub fn entry_cell(file: &[u8], at: usize, b: usize) -> [u8; 5]
    requires { at + 9 < 2 ^ 64 }
    ensures { result ≡ entry_cell file.now at b }
{
    if at + 9 <= file.len() {
        return cell_by_number(file, at, b);
    }
    cell_by_bytes(file, at, b)
}
