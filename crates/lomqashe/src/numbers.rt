// Bytes in blocks.
ghost use Rattle.std.specs.Prelude.{◌≡◌, ◌+◌, ◌≤◌, ◌++◌, length, take, drop};

use tune::parts::put_at;

// Writes a block of bytes at a place. The others stay.
pub fn put_block<const N: usize>(out: &mut [u8], at: usize, block: [u8; N])
    requires { at + N ≤ length out.old }
    ensures { (out.new ≡ take at out.old ++ (block.entry ++ drop (at + length block.entry) out.old)) × (length block.entry ≡ N) }
{
    put_at(out, at, &block);
}
