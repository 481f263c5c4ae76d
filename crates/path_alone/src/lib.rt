// The path alone, which the benchmark times: how many rows a tune has, with no channel and no record.
#![tactic(auto)]

ghost use Rattle.std.specs.Prelude.{◌≡◌, ◌≤◌, ◌^◌, length};
ghost use Rattle.row_path.specs.Sound.{Bounded};
ghost use Rattle.row_path.specs.Walk.{rows_left};
ghost use Rattle.path_alone.specs.Rows.{beyond, path_rows};

use row_path::machine::{Path, enter, first_path, leave};

#[tactic(auto, unfolding(crate::specs::Rows::beyond))]
fn is_beyond(orders: usize, tempo: u8, rate: u32, n: u32) -> bool
    ensures { result ≡ beyond orders tempo rate n }
{
    (255 < orders) | (tempo < 32) | (100000 < rate) | (0x8000_0000 < n)
}

fn count(orders: &[u8], cells: &[u8], p: Path, n: u32) -> u32
    requires { (length orders.now ≤ 255) × Bounded p × (p.clock.start ≡ 0) × (n ≤ 2 ^ 31) }
    ensures { result ≡ rows_left orders.now cells.now n p }
{
    let mut path = p;
    for rows in 0..n {
        if path.ended {
            return rows;
        }
        let e = enter(orders, cells, path);
        if e.path.ended {
            return rows;
        }
        path = leave(orders, e);
    }
    n
}

// The rows that a tune has from its start, of n; 0 where orders, tempo, rate or n are beyond what a path takes.
#[unsafe(no_mangle)]
pub extern "C" fn lomqashe_path_rows(
    orders: &[u8],
    cells: &[u8],
    speed: u8,
    tempo: u8,
    rate: u32,
    n: u32,
) -> u32
    ensures { result ≡ path_rows orders.now cells.now speed tempo rate n }
{
    if is_beyond(orders.len(), tempo, rate, n) {
        return 0;
    }
    count(orders, cells, first_path(speed, tempo, rate), n)
}
