// Rules 9 and 10, and 9, 11, 17 and 12.
ghost use Rattle.std.specs.Prelude.{◌≡◌, not};
ghost use Rattle.laws.specs.Entries.{every};
ghost use Rattle.channel.specs.LevelLimits.{level_above};
ghost use Rattle.tune.specs.Numbers.{Bytes};
ghost use Rattle.tune.specs.Rules.{verdict};
ghost use Rattle.section.specs.Tables.{lent_by};
ghost use Rattle.section.specs.Typed.{ByteTables, Shaped, ShapedOpening};
ghost use Rattle.section.specs.Open.{open_rule};
ghost use Rattle.section.specs.Section.{path_broken, channel_broken, state_rule, levels_rule, room_rule, section_rule};

use crate::state::State;
use channel::levels::volume_limit;
use channel::state::Channel;
use row_path::machine::Path;
use tune::opening::{Opening, check_opening, rate_broken};
use tune::rules::{Refusal, refuse_if};
use tune::sizes::{Tables, check_sizes};
use tune::transposition::is_beyond_24;

#[tactic(auto, unfolding(crate::specs::Section::path_broken))]
fn path_broken(p: Path) -> bool
    ensures { result ≡ path_broken p }
{
    (63 < p.place.row)
        | (63 < p.pattern_loop.start_row)
        | (p.clock.speed == 0)
        | (p.clock.tempo < 32)
        | (0x4000_0000_0000_0000 < p.clock.start)
        | rate_broken(p.clock.rate)
        | (2 * (p.clock.tempo as u16) <= p.clock.remainder)
}

#[tactic(auto, unfolding(crate::specs::Section::channel_broken))]
fn channel_broken(c: &Channel) -> bool
    ensures { result ≡ channel_broken c.now }
{
    c.frequency.is_nan() | c.target_frequency.is_nan() | is_beyond_24(c.fixed.transposition)
}

#[tactic(auto, unfolding(channel::specs::LevelLimits::level_above))]
fn level_above(c: &Channel) -> bool
    ensures { result ≡ level_above c.now }
{
    (volume_limit(c.fixed.adlib) < c.volume) | (15 < c.pan)
}

// Rule 11: the state is none that a section can go on from.
#[tactic(auto, unfolding(crate::specs::Section::state_rule))]
fn check_state(s: State) -> Result<(), Refusal>
    ensures { verdict result ≡ state_rule s }
{
    let broken = path_broken(s.path) | !s.channels.iter().all(|c| !channel_broken(c));
    refuse_if(broken, Refusal::State)
}

// Rule 17: a channel's level cannot be real.
#[tactic(auto, unfolding(crate::specs::Section::levels_rule))]
fn check_levels(s: State) -> Result<(), Refusal>
    ensures { verdict result ≡ levels_rule s }
{
    let kept = s.channels.iter().all(|c| !level_above(c));
    refuse_if(!kept, Refusal::ChannelLevels)
}

// Rule 12: n is too large or the output too short.
#[tactic(auto, unfolding(crate::specs::Section::room_rule))]
fn check_room(n: u32, room: usize) -> Result<(), Refusal>
    ensures { verdict result ≡ room_rule n room }
{
    refuse_if((65535 < n) | (room < 536 * (n as usize)), Refusal::Room)
}

// Does nothing: its promise is what the types of two lent parts say, from which the calls on a tune have `typed`.
fn bytes_typed(cells: &[u8], samples: &[u8])
    ensures { Bytes cells.now × Bytes samples.now }
{}

// The same of a state.
fn state_typed(s: State)
    ensures { Shaped s }
{}

// The first of rules 9 and 10 that is broken. `typed` has what the theorems on a tune presuppose.
#[tactic(auto, using(tune::proofs::Checks::refused, tune::proofs::Checks::passed, crate::proofs::Typed::tune_typed), unfolding(crate::specs::Open::open_rule))]
pub fn check_open(tables: Tables, o: Opening) -> Result<(), Refusal>
    ensures answer { verdict result ≡ open_rule (lent_by tables.entry) o }
    ensures typed { ByteTables (lent_by tables.entry) × ShapedOpening o }
{
    bytes_typed(tables.cells, tables.samples);
    check_sizes(tables)?;
    check_opening(o)
}

// The first of rules 9, 11, 17 and 12 that is broken. `typed` has what the theorems on a call presuppose.
#[tactic(auto, using(tune::proofs::Checks::refused, tune::proofs::Checks::passed), unfolding(crate::specs::Section::section_rule))]
pub fn check_section(tables: Tables, s: State, n: u32, room: usize) -> Result<(), Refusal>
    ensures answer { verdict result ≡ section_rule (lent_by tables.entry) s n room }
    ensures typed { ByteTables (lent_by tables.entry) × Shaped s }
{
    bytes_typed(tables.cells, tables.samples);
    state_typed(s);
    check_sizes(tables)?;
    check_state(s)?;
    check_levels(s)?;
    check_room(n, room)
}
