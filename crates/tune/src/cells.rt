// A row's cells as a part of the cells table, and one cell by value.
ghost use Rattle.std.specs.Prelude.{◌≡◌, ◌+◌, ◌*◌, ◌≤◌, ◌<◌, length};
ghost use Rattle.tune.specs.Cells.{row_cells, cell_of};

// Five bytes as the table has them, each of any number: no enum of commands holds them all.
#[derive(Clone, Copy)]
pub struct Cell {
    pub note: u8,
    pub instrument: u8,
    pub volume: u8,
    pub command: u8,
    pub info: u8,
}

// One row of one pattern: the cells of the 32 channels, five bytes each.
pub type Row = [u8; 160];

// A row as a part of the lent table.
#[tactic(auto, unfolding(crate::specs::Cells::row_cells))]
pub fn row_cells(cells: &[u8], pattern: u8, row: u8) -> &Row
    requires { (pattern * 10240 + 10240 ≤ length cells.now) × (row < 64) }
    ensures value { result.now ≡ row_cells cells.now pattern row }
    ensures whole { length result.now ≡ 160 }
{
    let from = usize::from(pattern) * 10240 + usize::from(row) * 160;
    cells[from..from + 160].as_array().unwrap()
}

// A channel's cell of a row.
#[tactic(auto, unfolding(crate::specs::Cells::cell_of))]
pub fn cell_of(row: &Row, channel: usize) -> Cell
    requires { channel < 32 }
    ensures { result ≡ cell_of row.now channel }
{
    let at = channel * 5;
    Cell {
        note: row[at],
        instrument: row[at + 1],
        volume: row[at + 2],
        command: row[at + 3],
        info: row[at + 4],
    }
}
