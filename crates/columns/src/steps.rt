// The steps in which the two ways differ. The loops in `converting` are the same for both.
ghost use Rattle.std.specs.Prelude.{◌≡◌, ◌+◌, ◌*◌, ◌<◌, ◌≤◌, Bool, true, false};
ghost use Rattle.columns.specs.Places.{made_at, place_of, Sized, Column, Strip, TileMade};

use crate::bytes::{byte_before, less, plus};
use crate::tiles::{Spread, add_up, blank, copy_row, copy_rows, differ_rows, to_columns, to_rows};

// A way from an input to an output: m records to their columns, or back. Input, m and output stay parameters: `Sized` ties an output
// that each step writes to its input, and in a struct every clause would name `sheet.entry.input.now` for `input.now`: no plainer.
pub trait Way {
    ghost storing: { Bool };

    // The place of byte c of record r in the output.
    fn place(m: usize, c: usize, r: usize) -> usize
        requires { (m ≤ 65535) × (c < 536) × (r < m) }
        ensures { (result ≡ place_of storing m c r) × (result < m * 536) };

    // The byte that belongs there; of an output that has it in the records before.
    fn byte(input: &[u8], m: usize, out: &[u8], c: usize, r: usize) -> u8
        requires sized { Sized m input.now out.now × (c < 536) × (r < m) }
        requires column { Column (place_of storing m) (made_at storing input.now m) out.now c r }
        ensures { result ≡ made_at storing input.now m (place_of storing m c r) };

    // 8 columns of 16 records, of an output that has these columns of the records before.
    fn tile(input: &[u8], m: usize, out: &mut [u8], c: usize, s: usize)
        requires sized { Sized m input.now out.old × (c + 8 ≤ 536) × (1 ≤ s) × (s + 16 ≤ m) }
        requires strip { Strip (place_of storing m) (made_at storing input.now m) out.old c s }
        ensures { TileMade storing input.now m out.old out.new c s };
}

// From records to columns.
pub struct Storing;

// From columns to records.
pub struct Restoring;

impl Way for Storing {
    ghost storing = { true };

    fn place(m: usize, c: usize, r: usize) -> usize {
        c * m + r
    }

    #[tactic(auto, using(crate::proofs::Ways::byte_stored))]
    fn byte(input: &[u8], _m: usize, _out: &[u8], c: usize, r: usize) -> u8 {
        less(input[r * 536 + c], byte_before(input, c, r))
    }

    // The differences of 16 records from the ones before, then in columns.
    fn tile(input: &[u8], m: usize, out: &mut [u8], c: usize, s: usize) {
        let mut t = blank();
        let mut u = blank();
        differ_rows(&mut t, input, (s - 1) * 536 + c);
        to_columns(&mut t, &mut u);
        copy_rows(
            out,
            Spread {
                at: c * m + s,
                step: m,
            },
            &t,
            Spread { at: 0, step: 16 },
            8,
            16,
        );
    }
}

impl Way for Restoring {
    ghost storing = { false };

    fn place(_m: usize, c: usize, r: usize) -> usize {
        r * 536 + c
    }

    #[tactic(auto, using(crate::proofs::Ways::byte_restored))]
    fn byte(input: &[u8], m: usize, out: &[u8], c: usize, r: usize) -> u8 {
        plus(byte_before(out, c, r), input[c * m + r])
    }

    // The differences in 16 records, then added up from the record before.
    fn tile(input: &[u8], m: usize, out: &mut [u8], c: usize, s: usize) {
        let mut t = blank();
        let mut u = blank();
        copy_rows(
            &mut t,
            Spread { at: 0, step: 16 },
            input,
            Spread {
                at: c * m + s,
                step: m,
            },
            8,
            16,
        );
        to_rows(&mut t, &mut u);
        copy_row(&mut t, 0, out, (s - 1) * 536 + c, 8);
        add_up(&mut t, &u);
        copy_rows(
            out,
            Spread {
                at: s * 536 + c,
                step: 536,
            },
            &t,
            Spread { at: 8, step: 8 },
            16,
            8,
        );
    }
}
