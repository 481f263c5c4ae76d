// The path's first state, and entering and leaving a row.
ghost use Rattle.std.specs.Prelude.{◌≡◌, ◌+◌, ◌*◌, ◌^◌, ◌≤◌, ◌<◌, length};
ghost use Rattle.row_path.specs.Card.{rescaled, units_of, length_of, rest_of};
ghost use Rattle.row_path.specs.Enter.{paced, acted, visited, entered};
ghost use Rattle.row_path.specs.First.{first_path};
ghost use Rattle.row_path.specs.Leave.{ticked, place_after, left};

use crate::loops::{Jump, PatternLoop, Place, jump_of, resolve, scope};
use crate::orders::{next_order, pattern_at, skip};
use crate::scan::{Scan, scan_row};
use tune::cells::row_cells;

// How often the row is still held, and whether this visit is a held one.
#[derive(Clone, Copy)]
pub struct Hold {
    pub left: u8,
    pub held: bool,
}

// Rate is in micrometres a second; start is where the row starts on the card, in whole micrometres, and remainder how much
// further on that is, in units of 1/(2 × tempo) of one. No invariant bounds them: `first_path` and the state of any 2,624
// bytes (`state_of` of crate lomqashe) hold any numbers, so the functions that need a bound ask for it.
#[derive(Clone, Copy)]
pub struct Clock {
    pub speed: u8,
    pub tempo: u8,
    pub rate: u32,
    pub start: u64,
    pub remainder: u16,
}

// The path's state, with each channel's last S info that was not 0.
#[derive(Clone, Copy)]
pub struct Path {
    pub place: Place,
    pub pattern_loop: PatternLoop,
    pub hold: Hold,
    pub clock: Clock,
    pub ended: bool,
    pub s_info: [u8; 32],
}

// A row that was entered: the path, the jump that waits for the leave, and the pattern.
#[derive(Clone, Copy)]
pub struct Entered {
    pub path: Path,
    pub jump: Option<Jump>,
    pub pattern: u8,
}

// The path where a tune opens.
#[tactic(auto, unfolding(crate::specs::First::first_path))]
pub fn first_path(speed: u8, tempo: u8, rate: u32) -> Path
    ensures { result ≡ first_path speed tempo rate }
{
    Path {
        place: Place { order: 0, row: 0 },
        pattern_loop: PatternLoop {
            order: None,
            start_row: 0,
            count: None,
        },
        hold: Hold {
            left: 0,
            held: false,
        },
        clock: Clock {
            speed,
            tempo,
            rate,
            start: 0,
            remainder: 0,
        },
        ended: false,
        s_info: [0; 32],
    }
}

// The remainder where the tempo goes from t to u.
#[tactic(auto, using(crate::proofs::Lengths::rescaled_same), unfolding(crate::specs::Card::rescaled))]
fn rescale(remainder: u16, t: u8, u: u8) -> u16
    requires { remainder < 2 * t }
    ensures { result ≡ rescaled remainder t u }
{
    if t == u {
        return remainder;
    }
    ((remainder as u32) * (u as u32) / (t as u32)) as u16
}

// The clock at a row that may set speed and tempo.
#[tactic(auto, unfolding(crate::specs::Enter::paced, crate::specs::Enter::clock_at))]
fn pace(c: Clock, a: Scan) -> Clock
    requires { c.remainder < 2 * c.tempo }
    ensures { result ≡ paced c a }
{
    let tempo = a.row_tempo.unwrap_or(c.tempo);
    Clock {
        speed: a.row_speed.unwrap_or(c.speed),
        tempo,
        remainder: rescale(c.remainder, c.tempo, tempo),
        ..c
    }
}

// The path behind what a row's cells ask for, and its jump.
#[tactic(auto, unfolding(crate::specs::Enter::acted, crate::specs::Enter::looped_by, crate::specs::Enter::settled, crate::specs::Enter::delayed))]
fn act(p: Path, pattern: u8, a: Scan) -> Entered
    requires { p.clock.remainder < 2 * p.clock.tempo }
    ensures { result ≡ acted p pattern a }
{
    let jump = jump_of(a.jump_row, a.jump_order);
    let looped = resolve(a.row_loop_request, p.place, p.pattern_loop, jump);
    let s_info = a.s_info;
    let path = Path {
        pattern_loop: looped.pattern_loop,
        hold: Hold {
            left: a.row_pattern_delay.unwrap_or(p.hold.left),
            ..p.hold
        },
        clock: pace(p.clock, a),
        s_info,
        ..p
    };
    Entered {
        path,
        jump: looped.jump,
        pattern,
    }
}

// A visit of the row: a held one changes nothing more.
#[tactic(auto, unfolding(crate::specs::Enter::visited))]
fn visit(cells: &[u8], p: Path, pattern: u8) -> Entered
    requires { (pattern * 10240 + 10240 ≤ length cells.now) × (p.place.row < 64) × (p.clock.remainder < 2 * p.clock.tempo) }
    ensures { result ≡ visited cells.now p pattern }
{
    if p.hold.held {
        return Entered {
            path: p,
            jump: None,
            pattern,
        };
    }
    let row = row_cells(cells, pattern, p.place.row);
    act(p, pattern, scan_row(row, p.s_info))
}

// Enter: the path at the row, or ended.
#[tactic(auto, using(crate::proofs::Named::named_below), unfolding(crate::specs::Enter::entered, crate::specs::Enter::entered_at, crate::specs::Enter::arrived, crate::specs::Enter::ended_at))]
pub fn enter(orders: &[u8], cells: &[u8], p: Path) -> Entered
    requires { (length orders.now ≤ 255) × (p.place.row < 64) × (p.clock.remainder < 2 * p.clock.tempo) }
    ensures { result ≡ entered orders.now cells.now p }
{
    let order = skip(orders, p.place.order);
    let place = Place { order, ..p.place };
    match pattern_at(orders, cells.len() / 10240, order) {
        None => Entered {
            path: Path {
                place,
                ended: true,
                ..p
            },
            jump: None,
            pattern: 0,
        },
        Some(pattern) => {
            let pattern_loop = scope(p.pattern_loop, order);
            visit(
                cells,
                Path {
                    place,
                    pattern_loop,
                    ..p
                },
                pattern,
            )
        }
    }
}

// What a row and the remainder before it come to, in units of 1/(2 × tempo) of a micrometre.
fn units(c: Clock) -> u32
    requires { c.rate ≤ 100000 }
    ensures { result ≡ units_of c + c.remainder }
{
    (c.speed as u32) * 5 * c.rate + c.remainder as u32
}

// The row's length on the card, in micrometres.
#[tactic(auto, unfolding(crate::specs::Card::length_of))]
pub fn row_length(c: Clock) -> u32
    requires { (32 ≤ c.tempo) × (c.rate ≤ 100000) }
    ensures { result ≡ length_of c }
{
    units(c) / (2 * (c.tempo as u32))
}

// What is left over of it: the new remainder.
#[tactic(auto, unfolding(crate::specs::Card::rest_of))]
fn row_rest(c: Clock) -> u16
    requires { (32 ≤ c.tempo) × (c.rate ≤ 100000) }
    ensures { result ≡ rest_of c }
{
    (units(c) % (2 * (c.tempo as u32))) as u16
}

#[tactic(auto, unfolding(crate::specs::Leave::ticked))]
fn tick(c: Clock) -> Clock
    requires { (32 ≤ c.tempo) × (c.rate ≤ 100000) × (c.start ≤ 2 ^ 63) }
    ensures value { result ≡ ticked c }
    ensures within { result.start ≤ c.start + 2 ^ 32 }
{
    Clock {
        start: c.start + row_length(c) as u64,
        remainder: row_rest(c),
        ..c
    }
}

// Where a jump goes, or the next row.
fn place_after(j: Option<Jump>, at: Place) -> Place
    ensures { result ≡ place_after j at }
{
    match j {
        Some(to) => Place {
            order: to.order.unwrap_or(next_order(at.order)),
            row: to.row,
        },
        None if at.row < 63 => Place {
            row: at.row + 1,
            ..at
        },
        None => Place {
            order: next_order(at.order),
            row: 0,
        },
    }
}

// Leave: the card start grows, and the row is held, left by its jump, or followed by the next. At or past the end of the
// list the tune has ended.
#[tactic(auto, unfolding(crate::specs::Leave::left, crate::specs::Leave::held_on, crate::specs::Leave::gone_on))]
pub fn leave(orders: &[u8], e: Entered) -> Path
    requires { (32 ≤ e.path.clock.tempo) × (e.path.clock.rate ≤ 100000) × (e.path.clock.start ≤ 2 ^ 63) }
    ensures value { result ≡ left orders.now e }
    ensures within { result.clock.start ≤ e.path.clock.start + 2 ^ 32 }
{
    let p = e.path;
    let clock = tick(p.clock);
    if (0 < p.hold.left) & e.jump.is_none() {
        return Path {
            hold: Hold {
                left: p.hold.left - 1,
                held: true,
            },
            clock,
            ..p
        };
    }
    let place = place_after(e.jump, p.place);
    Path {
        place,
        hold: Hold {
            left: 0,
            held: false,
        },
        clock,
        ended: p.ended | (orders.len() <= usize::from(place.order)),
        ..p
    }
}
