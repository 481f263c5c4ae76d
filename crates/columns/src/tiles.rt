// Tiles of 16 records and 8 columns, in local arrays. Each loop goes over rows of 8 or 16 bytes, which the compiler turns
// into a few instructions on 16 bytes at once.
ghost use Rattle.std.specs.Prelude.{◌≡◌, ◌+◌, ◌*◌, ◌≤◌, length};
ghost use Rattle.columns.specs.Places.{RowsFit, RowPut, RowsPut, RowDiffered, RowsDiffered, AddedUp, Moved, interleaved_from, columns_from, rows_from};

use crate::bytes::{less, plus};

// A tile, and room for the 8 bytes before it.
pub type Tile = [u8; 136];

// Room for a tile. What it holds is not told.
pub fn blank() -> Tile
    ensures { length result ≡ 136 }
{
    [0u8; 136]
}

// The bytes of the first half of a tile in turn with those of the second.
fn interleave(t: &Tile, u: &mut Tile)
    ensures { Moved 128 interleaved_from t.now u.new }
{
    for i in 0..64 {
        u[2 * i] = t[i];
        u[2 * i + 1] = t[i + 64];
    }
}

// 16 rows of 8 bytes to 8 columns of 16, in t. A place has seven bits, and each time the lowest of them becomes the highest of
// the place that its byte comes from.
pub fn to_columns(t: &mut Tile, u: &mut Tile)
    ensures { Moved 128 columns_from t.old t.new }
{
    interleave(t, u);
    interleave(u, t);
    interleave(t, u);
    interleave(u, t);
}

// 8 columns of 16 bytes to 16 rows of 8, from t to u.
pub fn to_rows(t: &mut Tile, u: &mut Tile)
    ensures { Moved 128 rows_from t.old u.new }
{
    interleave(t, u);
    interleave(u, t);
    interleave(t, u);
}

// n bytes from place b on to place a on. By `copy_from_slice` a record takes 980 to 1,360 instructions instead of 395: the compiler
// then keeps the tile in memory, and asks at each row whether the two lie apart.
pub fn copy_row(to: &mut [u8], a: usize, from: &[u8], b: usize, n: usize)
    requires { (a + n ≤ length to.old) × (b + n ≤ length from.now) }
    ensures { RowPut n from.now b to.old to.new a }
{
    for j in 0..n {
        to[a + j] = from[b + j];
    }
}

// Rows of which the first begins at a place, and each other one a step behind the one before.
#[derive(Clone, Copy)]
pub struct Spread {
    pub at: usize,
    pub step: usize,
}

// So many rows of n bytes, spread so where they go and so where they come from.
pub fn copy_rows(to: &mut [u8], a: Spread, from: &[u8], b: Spread, rows: usize, n: usize)
    requires { RowsFit rows n a.at a.step to.old × RowsFit rows n b.at b.step from.now }
    ensures { RowsPut rows n from.now b.at b.step to.old to.new a.at a.step }
{
    for i in 0..rows {
        copy_row(to, a.at + i * a.step, from, b.at + i * b.step, n);
    }
}

// 8 bytes of the record behind place b as differences from those of the record at b.
fn differ_row(t: &mut Tile, a: usize, records: &[u8], b: usize)
    requires { (a + 8 ≤ 136) × (b + 536 + 8 ≤ length records.now) }
    ensures { RowDiffered 8 records.now b t.old t.new a }
{
    for j in 0..8 {
        t[a + j] = less(records[b + 536 + j], records[b + j]);
    }
}

// The same of 16 records.
pub fn differ_rows(t: &mut Tile, records: &[u8], b: usize)
    requires { b + 16 * 536 + 8 ≤ length records.now }
    ensures { RowsDiffered 16 records.now b t.new }
{
    for i in 0..16 {
        differ_row(t, i * 8, records, b + i * 536);
    }
}

// The bytes of 16 rows of 8, from their differences and the row before them.
pub fn add_up(t: &mut Tile, d: &Tile)
    ensures { AddedUp 128 d.now t.old t.new }
{
    for k in 0..128 {
        t[k + 8] = plus(t[k], d[k]);
    }
}
