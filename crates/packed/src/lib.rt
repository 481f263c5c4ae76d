// Unpacks one packed pattern of an S3M file.
#![tactic(auto)]

pub mod entry;

ghost use Rattle.std.specs.Prelude.{◌≡◌, ◌||◌, ◌+◌, ◌^◌, ◌<◌, ltb, length};
ghost use Rattle.laws.specs.Choice.{pick};
ghost use Rattle.laws.specs.Entries.{pieces};
ghost use Rattle.packed.specs.Entry.{empty_cell};
ghost use Rattle.packed.specs.Unpacking.{step_place, step_cells, runs_past, empty_pattern, unpacked};

use tune::parts::put_at;

// The cells of a pattern: 64 rows of 32 channels, five bytes each.
pub type Pattern = [u8; 10240];

// Where the unpacking stands: the next byte of the file, and the row.
#[derive(Clone, Copy)]
pub struct Place {
    pub at: usize,
    pub row: usize,
}

// The place behind the 0 or the entry at p.
fn next_place(file: &[u8], p: Place) -> Place
    requires { (p.row < 64) × (p.at + 6 < 2 ^ 64) }
    ensures { result ≡ step_place file.now p.at p.row }
{
    // A 0 takes one byte too, so no branch is needed.
    let b = entry::wide_at(file, p.at);
    Place {
        at: p.at + entry::entry_bytes(b),
        row: p.row + entry::rows_ended(b),
    }
}

// The cells and the place behind the 0 or the entry at p.
fn put_step(file: &[u8], p: Place, cells: &mut Pattern) -> Place
    requires { (p.row < 64) × (p.at + 9 < 2 ^ 64) }
    ensures place { result ≡ step_place file.now p.at p.row }
    ensures written { cells.new ≡ step_cells file.now p.at p.row cells.old }
{
    let b = entry::wide_at(file, p.at);
    if b == 0 {
        return Place {
            at: p.at + 1,
            row: p.row + 1,
        };
    }
    let cell = entry::entry_cell(file, p.at, b);
    put_at(cells, p.row * 160 + entry::channel_of(b) * 5, &cell);
    Place {
        at: p.at + entry::entry_bytes(b),
        ..p
    }
}

// Whether the pattern at `at` runs past the file before its 64th row ends (rule 8).
pub fn runs_past(file: &[u8], at: usize) -> bool
    requires { at < 2 ^ 32 }
    ensures { result ≡ runs_past file.now at }
{
    let mut p = Place { at, row: 0 };
    while p.row < 64 {
        p = next_place(file, p);
    }
    file.len() < p.at
}

// A row of cells that no entry names.
fn empty_row() -> [u8; 160]
    ensures { result ≡ pieces 32 (λ k. empty_cell) }
{
    let empty: [u8; 5] = [255, 0, 255, 0, 0];
    let mut row = [0; 160];
    for k in 0..32 {
        put_at(&mut row, k * 5, &empty);
    }
    row
}

// The place behind the 0 or the entry at p, or p where the 64th row has ended.
fn go_on(file: &[u8], p: Place) -> Place
    requires { p.at + 6 < 2 ^ 64 }
    ensures { result ≡ pick (ltb p.row 64) (step_place file.now p.at p.row) p }
{
    if p.row < 64 {
        return next_place(file, p);
    }
    p
}

// Whether one of four patterns runs past the file. A step waits for the byte that says where the next one is; four
// patterns wait side by side, so the four places are variables, which stay in registers, and no array.
pub fn any_runs_past(file: &[u8], a: usize, b: usize, c: usize, d: usize) -> bool
    requires { (a < 2 ^ 32) × (b < 2 ^ 32) × (c < 2 ^ 32) × (d < 2 ^ 32) }
    ensures { result ≡ runs_past file.now a || runs_past file.now b || runs_past file.now c || runs_past file.now d }
{
    let mut p = Place { at: a, row: 0 };
    let mut q = Place { at: b, row: 0 };
    let mut r = Place { at: c, row: 0 };
    let mut s = Place { at: d, row: 0 };
    while (p.row < 64) | (q.row < 64) | (r.row < 64) | (s.row < 64) {
        p = go_on(file, p);
        q = go_on(file, q);
        r = go_on(file, r);
        s = go_on(file, s);
    }
    let n = file.len();
    (n < p.at) | (n < q.at) | (n < r.at) | (n < s.at)
}

// Fills a pattern's cells with what a cell has that no entry names, row by row.
pub fn fill_empty(cells: &mut Pattern)
    ensures { cells.new ≡ empty_pattern }
{
    let row = empty_row();
    for r in 0..64 {
        let from = r * 160;
        cells[from..from + 160].copy_from_slice(&row);
    }
}

// Unpacks the pattern at `at` into its own stretch of the cells.
pub fn unpack(file: &[u8], at: usize, cells: &mut Pattern)
    requires { at < 2 ^ 32 }
    ensures { cells.new ≡ unpacked file.now at }
{
    fill_empty(cells);
    let mut p = Place { at, row: 0 };
    while p.row < 64 {
        p = put_step(file, p, cells);
    }
}
