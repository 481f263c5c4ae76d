// A row's 32 channels in turn: what A, B, C, S and T ask for.
ghost use Rattle.std.specs.Prelude.{◌≡◌, ◌<◌, ltb};
ghost use Rattle.laws.specs.Choice.{pick};
ghost use Rattle.laws.specs.Entries.{some};
ghost use Rattle.tune.specs.Cells.{cell_of};
ghost use Rattle.row_path.specs.Scan.{scan_row, break_row, special, special_at, heard, scanned, first_scan};
ghost use Rattle.row_path.specs.Steering.{steers};

use tune::cells::{Row, cell_of};
use tune::numbers::{high_nibble, low_nibble};

// The commands that the path reads: A, B, C, S and T.
const SPEED: u8 = 1;

pub const JUMP: u8 = 2;

const BREAK: u8 = 3;

pub const SPECIAL: u8 = 19;

const TEMPO: u8 = 20;

// The Rust's row-level variables, and each channel's last S info that was not 0.
#[derive(Clone, Copy)]
pub struct Scan {
    pub row_speed: Option<u8>,
    pub row_tempo: Option<u8>,
    pub jump_order: Option<u8>,
    pub jump_row: Option<u8>,
    pub row_loop_request: Option<u8>,
    pub row_pattern_delay: Option<u8>,
    pub s_info: [u8; 32],
}

// Sxy with the info that counts.
#[tactic(auto, unfolding(crate::specs::Scan::special, crate::specs::Scan::scan_loop, crate::specs::Scan::scan_delay))]
fn hear_special(a: Scan, x: u8) -> Scan
    ensures { result ≡ special a x }
{
    let p = low_nibble(x);
    match high_nibble(x) {
        0xB => Scan {
            row_loop_request: Some(p),
            ..a
        },
        0xE => Scan {
            row_pattern_delay: Some(p),
            ..a
        },
        _ => a,
    }
}

// Sxy of channel i: info 0 takes the channel's last one, any other becomes it.
#[tactic(auto, unfolding(crate::specs::Scan::special_at, crate::specs::Scan::scan_info))]
fn hear_special_at(a: Scan, i: usize, x: u8) -> Scan
    requires { i < 32 }
    ensures { result ≡ special_at a i x }
{
    if x == 0 {
        return hear_special(a, a.s_info[i]);
    }
    let mut b = a;
    b.s_info[i] = x;
    hear_special(b, x)
}

#[tactic(auto, unfolding(crate::specs::Scan::scan_row))]
fn hear_break(a: Scan, x: u8) -> Scan
    ensures { result ≡ pick (ltb (break_row x) 64) (scan_row a (break_row x)) a }
{
    let row = high_nibble(x) * 10 + low_nibble(x);
    if row < 64 {
        return Scan {
            jump_row: Some(row),
            ..a
        };
    }
    a
}

// What command c with info x asks for in channel i.
#[tactic(auto, unfolding(crate::specs::Scan::heard, crate::specs::Scan::scan_speed, crate::specs::Scan::scan_tempo, crate::specs::Scan::scan_order))]
fn hear(a: Scan, i: usize, c: u8, x: u8) -> Scan
    requires { i < 32 }
    ensures { result ≡ heard a i c x }
{
    match c {
        SPEED if x != 0 => Scan {
            row_speed: Some(x),
            ..a
        },
        TEMPO if 32 <= x => Scan {
            row_tempo: Some(x),
            ..a
        },
        JUMP => Scan {
            jump_order: Some(x),
            ..a
        },
        BREAK => hear_break(a, x),
        SPECIAL => hear_special_at(a, i, x),
        _ => a,
    }
}

// Whether the path reads a command at all.
#[tactic(auto, unfolding(crate::specs::Steering::steers))]
fn is_steering(c: u8) -> bool
    ensures { result ≡ steers c }
{
    (c == SPEED) | (c == TEMPO) | (c == JUMP) | (c == BREAK) | (c == SPECIAL)
}

// Whether some cell of a row steers. No branch: most rows have none.
#[tactic(auto, using(crate::proofs::Unsteered::steers_more), unfolding(laws::specs::Entries::some))]
fn may_steer(row: &Row) -> bool
    ensures { result ≡ some 32 (λ i. steers (cell_of row.now i).command) }
{
    let mut seen = false;
    for i in 0..32 {
        seen |= is_steering(row[i * 5 + 3]);
    }
    seen
}

// The 32 channels of a row in turn. A cell that does not steer is passed over, so that the scan is not copied for it.
#[tactic(auto, using(crate::proofs::Steps::scan_more, crate::proofs::ReadsOnly::unheard), unfolding(crate::specs::Scan::scanned))]
fn scan_cells(row: &Row, first: Scan) -> Scan
    ensures { result ≡ scanned row.now 32 first }
{
    let mut a = first;
    for i in 0..32 {
        let cell = cell_of(row, i);
        if is_steering(cell.command) {
            a = hear(a, i, cell.command, cell.info);
        }
    }
    a
}

// The scan of a row, whose cells are gone through only if one of them steers.
#[tactic(auto, using(crate::proofs::Unsteered::unsteered), unfolding(crate::specs::Scan::first_scan))]
pub fn scan_row(row: &Row, s_info: [u8; 32]) -> Scan
    ensures { result ≡ scanned row.now 32 (first_scan s_info) }
{
    // All spelled out: a default array of S infos would be written for each row.
    let first = Scan {
        row_speed: None,
        row_tempo: None,
        jump_order: None,
        jump_row: None,
        row_loop_request: None,
        row_pattern_delay: None,
        s_info,
    };
    if may_steer(row) {
        return scan_cells(row, first);
    }
    first
}
