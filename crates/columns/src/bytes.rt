// Single bytes of a column.
ghost use Rattle.std.specs.Prelude.{◌≡◌, ◌*◌, ◌<◌, ◌≤◌, length};
ghost use Rattle.columns.specs.Columns.{difference, sum, byte_of};
ghost use Rattle.columns.specs.Places.{prior};

// A byte's difference from the one before; it wraps on purpose.
pub fn less(x: u8, before: u8) -> u8
    ensures { (result ≡ difference x before) × (x < 256) }
{
    x.wrapping_sub(before)
}

// The byte that differs so from the one before; it wraps on purpose.
pub fn plus(before: u8, d: u8) -> u8
    ensures { (result ≡ sum before d) × (d < 256) }
{
    before.wrapping_add(d)
}

// Byte c of the record before record r, 0 before the first.
#[tactic(auto, using(crate::proofs::Differences::prior_first, crate::proofs::Differences::prior_before))]
pub(crate) fn byte_before(records: &[u8], c: usize, r: usize) -> u8
    requires { (c < 536) × (r * 536 ≤ length records.now) × (r ≤ 65535) }
    ensures { result ≡ prior (byte_of records.now c) r }
{
    if r == 0 {
        return 0;
    }
    records[(r - 1) * 536 + c]
}
