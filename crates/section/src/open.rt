// Open.
ghost use Rattle.std.specs.Prelude.{◌≡◌, map};
ghost use Rattle.channel.specs.Opening.{opened_channel};
ghost use Rattle.section.specs.Tables.{lent_by};
ghost use Rattle.section.specs.Typed.{ByteTables, ShapedOpening};
ghost use Rattle.section.specs.Open.{fresh_state, open_of, opened};

use crate::rules::check_open;
use crate::state::State;
use channel::state::{Channel, Switches, open_channel};
use row_path::machine::first_path;
use tune::opening::{ChannelOpening, Opening};
use tune::rules::Refusal;
use tune::sizes::Tables;

// The channels of a fresh state. (`map` would copy them once more.)
fn open_channels(openings: [ChannelOpening; 32]) -> [Channel; 32]
    ensures { result ≡ map opened_channel openings }
{
    let mut channels = [open_channel(openings[0]); 32];
    for i in 0..32 {
        channels[i] = open_channel(openings[i]);
    }
    channels
}

#[tactic(auto, unfolding(crate::specs::Open::fresh_state))]
pub fn fresh_state(o: Opening) -> State
    ensures { result ≡ fresh_state o }
{
    let openings = o.channels;
    State {
        path: first_path(o.speed, o.tempo, o.rate),
        channels: open_channels(openings),
        global_volume: o.global_volume,
        switches: Switches {
            amiga_limits: o.amiga_limits,
            fast_slides: o.fast_slides,
        },
    }
}

// Open: the fresh state of a tune, or rule 9 or 10.
#[tactic(auto, unfolding(crate::specs::Open::open_of))]
pub fn open(tables: Tables, o: Opening) -> Result<State, Refusal>
    ensures answer { opened result ≡ open_of (lent_by tables.entry) o }
    ensures typed { ByteTables (lent_by tables.entry) × ShapedOpening o }
{
    check_open(tables, o)?;
    Ok(fresh_state(o))
}
