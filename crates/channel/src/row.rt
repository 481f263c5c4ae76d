// A channel's half of the Rust's `enter_row`.
ghost use Rattle.std.specs.Prelude.{◌≡◌};
ghost use Rattle.channel.specs.Row.{puts_off, put_off, held_back, delivered, relatched, channel_entered};

use crate::commands::act;
use crate::memory::{arm, memory_slot, stores};
use crate::play::play_cell;
use crate::state::{Channel, PendingTrigger, Played, Switches};
use pitch::periods::PeriodTable;
use tune::cells::Cell;
use tune::numbers::{high_nibble, low_nibble};

fn is_note_delay(command: u8, info: u8) -> bool
    ensures { result ≡ puts_off command info }
{
    (command == 19) & (high_nibble(info) == 0xD) & (low_nibble(info) != 0)
}

#[tactic(auto, unfolding(crate::specs::Row::put_off))]
fn put_off(cell: Cell, info: u8) -> Option<PendingTrigger>
    ensures { result ≡ put_off cell info }
{
    Some(PendingTrigger {
        fire_tick: low_nibble(info),
        note: cell.note,
        instrument: cell.instrument,
        volume: cell.volume,
    })
}

// The channel with the cell put off, where SDx asks for it.
#[tactic(auto, unfolding(crate::specs::Row::held_back, crate::specs::Set::with_delay))]
fn hold_back(c: Channel, cell: Cell) -> Channel
    ensures { result ≡ held_back c cell }
{
    if is_note_delay(cell.command, c.info) {
        return Channel {
            pending_delay: put_off(cell, c.info),
            ..c
        };
    }
    c
}

// The cell is played, put off, or both.
#[tactic(auto, using(crate::proofs::Delivered::put_off_alone, crate::proofs::Delivered::played_at_once))]
fn deliver(
    c: Channel,
    cell: Cell,
    samples: &[u8],
    table: &PeriodTable,
    amiga: bool,
    global: u8,
) -> Played
    ensures { result ≡ delivered c cell samples.now amiga global }
{
    let in_force = Cell {
        info: c.info,
        ..cell
    };
    let channel = hold_back(c, cell);
    if is_note_delay(cell.command, c.info) & (cell.info != 0) {
        return Played {
            channel,
            struck: false,
        };
    }
    play_cell(channel, in_force, samples, table, amiga, global)
}

// The voice latches the global volume if the volume is not the one before the row.
#[tactic(auto, unfolding(crate::specs::Row::relatched, crate::specs::Set::with_latch))]
fn relatch(c: Channel, before: u8, global: u8) -> Channel
    ensures { result ≡ relatched c before global }
{
    if c.volume == before {
        return c;
    }
    Channel {
        voice_global_vol: global,
        ..c
    }
}

// The channel after a row's start, and whether a note was struck.
pub fn enter_channel(
    c: Channel,
    cell: Cell,
    s_info: u8,
    samples: &[u8],
    table: &PeriodTable,
    w: Switches,
    global: u8,
) -> Played
    ensures { result ≡ channel_entered c cell s_info samples.now w global }
{
    let mut memory = c.effect_memory;
    if stores(cell.command, cell.info) {
        memory[memory_slot(cell.command)] = cell.info;
    }
    let armed = arm(c, cell, s_info);
    let e = deliver(armed, cell, samples, table, w.amiga_limits, global);
    let delivered = e.channel;
    let mut channel = relatch(act(delivered, table, w), c.volume, global);
    // Set last: a memory that goes through the steps is copied at each.
    channel.effect_memory = memory;
    Played {
        channel,
        struck: e.struck,
    }
}
