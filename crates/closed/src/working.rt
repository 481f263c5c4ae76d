// Whether a tune is closed, worked out row by row.
ghost use Rattle.std.specs.Prelude.{◌≡◌, ◌||◌, ◌+◌, ◌*◌, ◌/◌, ◌%◌, ◌≤◌, ◌<◌, eqb, ltb, length};
ghost use Rattle.laws.specs.Choice.{pick};
ghost use Rattle.laws.specs.Entries.{some};
ghost use Rattle.tune.specs.Sizes.{pattern_count};
ghost use Rattle.tune.specs.Cells.{cell_of};
ghost use Rattle.closed.specs.Closed.{loop_or, last_loop, closed};
ghost use Rattle.closed.specs.Working.{after_last, is_special_or_jump, cell_breaks, row_breaks, pattern_breaks};

use row_path::scan::{JUMP, SPECIAL};
use tune::cells::{Cell, Row, cell_of, row_cells};

// Behind the last place that names a pattern; 0 where none does.
#[tactic(auto, using(crate::proofs::Rounds::after_none, crate::proofs::Rounds::after_here, crate::proofs::Rounds::after_other))]
fn after_last(orders: &[u8], pattern: u8) -> usize
    ensures { result ≡ after_last orders.now pattern (length orders.now) }
{
    let mut after: usize = 0;
    for (place, &order) in orders.iter().enumerate() {
        if order == pattern {
            after = place + 1;
        }
    }
    after
}

// What the first channels of a row have: whether a cell breaks, and the p of the last SB, 0 where there is none.
#[derive(Clone, Copy, Default)]
struct RowRead {
    breaks: bool,
    p: u8,
}

// One cell with S more.
fn read_special(read: RowRead, info: u8) -> RowRead
    ensures { (result.breaks ≡ (read.breaks || eqb info 0)) × (result.p ≡ pick (eqb (info / 16) 0xB) (info % 16) read.p) }
{
    if info / 16 == 0xB {
        return RowRead {
            p: info % 16,
            ..read
        };
    }
    RowRead {
        breaks: read.breaks | (info == 0),
        ..read
    }
}

// One cell more.
#[tactic(auto, using(crate::proofs::Rounds::cell_special, crate::proofs::Rounds::cell_jump, crate::proofs::Rounds::cell_other))]
fn read_cell(read: RowRead, c: Cell, after: usize) -> RowRead
    ensures { (result.breaks ≡ (read.breaks || cell_breaks after c)) × (result.p ≡ loop_or c read.p) }
{
    match c.command {
        SPECIAL => read_special(read, c.info),
        JUMP => RowRead {
            breaks: read.breaks | ((c.info as usize) < after),
            ..read
        },
        _ => read,
    }
}

fn is_special_or_jump(command: u8) -> bool
    ensures { result ≡ is_special_or_jump command }
{
    (command == SPECIAL) | (command == JUMP)
}

// The 32 channels in turn.
#[tactic(auto, using(crate::proofs::Rounds::breaks_none, crate::proofs::Rounds::breaks_more, crate::proofs::Rounds::last_none, crate::proofs::Rounds::last_more))]
fn read_cells(row: &Row, after: usize) -> RowRead
    ensures { (result.breaks ≡ row_breaks after row.now 32) × (result.p ≡ last_loop row.now 32) }
{
    let mut read = RowRead::default();
    for channel in 0..32 {
        read = read_cell(read, cell_of(row, channel), after);
    }
    read
}

// Whether some cell of a row has S or B. No branch: most rows have neither.
#[tactic(auto, using(crate::proofs::Rounds::either_more, laws::proofs::Tables::some_none))]
fn has_special_or_jump(row: &Row) -> bool
    ensures { result ≡ some 32 (λ channel. is_special_or_jump (cell_of row.now channel).command) }
{
    let mut seen = false;
    for channel in 0..32 {
        seen |= is_special_or_jump(row[channel * 5 + 3]);
    }
    seen
}

// A row, whose cells are gone through only if one of them has S or B.
#[tactic(auto, using(crate::proofs::Rounds::neither_breaks, crate::proofs::Rounds::neither_last))]
fn read_row(row: &Row, after: usize) -> RowRead
    ensures { (result.breaks ≡ row_breaks after row.now 32) × (result.p ≡ last_loop row.now 32) }
{
    if has_special_or_jump(row) {
        return read_cells(row, after);
    }
    RowRead::default()
}

// Whether a pattern has a cell that breaks, or more than one row that loops.
#[tactic(auto, using(laws::proofs::Tables::some_none, laws::proofs::Tables::some_step, laws::proofs::Counts::many_none, laws::proofs::Counts::many_step, laws::proofs::Counts::many_most), unfolding(crate::specs::Working::pattern_breaks))]
fn pattern_breaks(orders: &[u8], cells: &[u8], pattern: u8) -> bool
    requires { pattern * 10240 + 10240 ≤ length cells.now }
    ensures { result ≡ pattern_breaks orders.now cells.now pattern }
{
    let after = after_last(orders, pattern);
    let mut breaks = false;
    let mut loops: u8 = 0;
    for row in 0..64 {
        let read = read_row(row_cells(cells, pattern, row), after);
        breaks |= read.breaks;
        if 0 < read.p {
            loops += 1;
        }
    }
    breaks | (1 < loops)
}

// Whether tables of the right sizes are closed.
#[tactic(auto, using(laws::proofs::Tables::some_none, laws::proofs::Tables::some_next, crate::proofs::Rounds::patterns_break, crate::proofs::Rounds::patterns_done))]
pub fn tables_closed(orders: &[u8], cells: &[u8]) -> bool
    requires { (length cells.now ≡ pattern_count cells.now * 10240) × (pattern_count cells.now ≤ 100) }
    ensures { result ≡ closed orders.now cells.now }
{
    for pattern in 0..cells.len() / 10240 {
        if pattern_breaks(orders, cells, pattern as u8) {
            return false;
        }
    }
    true
}
