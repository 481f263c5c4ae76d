// The 32 channels of a row.
ghost use Rattle.std.specs.Prelude.{◌≡◌, ◌+◌, ◌<◌, ◌^◌, length};
ghost use Rattle.laws.specs.Choice.{pick};
ghost use Rattle.laws.specs.Masks.{bit_at};
ghost use Rattle.channel.specs.Channels.{waits, row_entered};

use crate::row::enter_channel;
use crate::state::{Channel, Switches};
use pitch::periods::PeriodTable;
use tune::cells::{Cell, Row, cell_of};

// The channels after a row's start, the strike mask, and the global volume that the leave sets.
#[derive(Clone, Copy)]
pub struct Rowed {
    pub channels: [Channel; 32],
    pub strikes: u32,
    pub global_volume: u8,
}

// The mask with channel i's bit, where it is struck.
pub fn mark(mask: u32, i: usize, struck: bool) -> u32
    requires { (i < 32) × (mask < 2 ^ i) }
    ensures { (result ≡ mask + bit_at struck i) × (result < 2 ^ (i + 1)) }
{
    if struck { mask | (1u32 << i) } else { mask }
}

// Vxx: the global volume that waits, a cell further.
pub fn hear_volume(cell: Cell, waiting: u8) -> u8
    ensures { result ≡ pick (waits cell.command cell.info) cell.info waiting }
{
    if (cell.command == 22) & (cell.info <= 64) {
        return cell.info;
    }
    waiting
}

// Every channel in turn, with its own cell and its own S info.
pub fn enter_channels(
    channels: [Channel; 32],
    row: &Row,
    s_infos: [u8; 32],
    samples: &[u8],
    w: Switches,
    global: u8,
) -> Rowed
    ensures { result ≡ row_entered row.now s_infos samples.now w global channels }
{
    let table = PeriodTable::new();
    let mut entered = channels;
    let mut strikes: u32 = 0;
    let mut waiting = global;
    for i in 0..32 {
        let cell = cell_of(row, i);
        let c = entered[i];
        let e = enter_channel(c, cell, s_infos[i], samples, &table, w, global);
        entered[i] = e.channel;
        strikes = mark(strikes, i, e.struck);
        waiting = hear_volume(cell, waiting);
    }
    Rowed {
        channels: entered,
        strikes,
        global_volume: waiting,
    }
}
