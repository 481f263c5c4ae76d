// Section: its loop, and the call.
ghost use Rattle.std.specs.Prelude.{◌≡◌, true, not, map, ◌<◌, length, Ok};
ghost use Rattle.laws.specs.Choice.{pick};
ghost use Rattle.laws.specs.Entries.{every};
ghost use Rattle.tune.specs.Cells.{cell_of};
ghost use Rattle.channel.specs.Rest.{at_rest, quiet};
ghost use Rattle.section.specs.Tables.{lent_by};
ghost use Rattle.section.specs.Records.{channels_bytes};
ghost use Rattle.section.specs.Section.{channel_broken, section_rule, gave, section_of, sectioned, answered, output_after};
ghost use Rattle.section.specs.Typed.{ByteTables, Shaped};
ghost use Rattle.section.specs.Walk as spec;

use crate::record::{put_channel, put_head};
use crate::rules::check_section;
use crate::state::{Progress, State};
use channel::channels::{hear_volume, mark};
use channel::rest::is_at_rest;
use channel::row::enter_channel;
use channel::state::{Channel, Switches};
use pitch::periods::PeriodTable;
use row_path::machine::{Path, enter, leave};
use tune::cells::{Row, cell_of, row_cells};
use tune::numbers::u32_at;
use tune::rules::Refusal;
use tune::sizes::Tables;

// What a call gives, whose state the loop keeps in parts.
fn given(
    rows: u32,
    path: Path,
    channels: [Channel; 32],
    global_volume: u8,
    switches: Switches,
) -> Progress
    ensures { result ≡ record { rows = rows; ended = path.ended; state = record { path = path; channels = channels; global_volume = global_volume; switches = switches } } }
{
    Progress {
        rows,
        ended: path.ended,
        state: State {
            path,
            channels,
            global_volume,
            switches,
        },
    }
}

// Whether a channel's cell of a row is quiet: its first four bytes as one number, and the fifth.
fn is_quiet_at(row: &Row, i: usize) -> bool
    requires { i < 32 }
    ensures { result ≡ quiet (cell_of row.now i) }
{
    let at = i * 5;
    (u32_at(row, at) == 0x00FF_00FF) & (row[at + 4] == 0)
}

// The channels' bytes, as a record has them.
fn shown_of(channels: &[Channel; 32]) -> [u8; 512]
    requires { every (λ i c. not (channel_broken c)) 0 channels.now ≡ true }
    ensures { result ≡ channels_bytes channels.now }
{
    let mut shown = [0; 512];
    for i in 0..32 {
        put_channel(&mut shown, i * 16, channels[i]);
    }
    shown
}

// Which channels are at rest. (`map` would copy the channels.)
fn rests_of(channels: &[Channel; 32]) -> [bool; 32]
    ensures { result ≡ map at_rest channels.now }
{
    let mut rests = [false; 32];
    for i in 0..32 {
        rests[i] = is_at_rest(channels[i]);
    }
    rests
}

// The first channel that a visit enters: a held visit enters none.
fn first_entered(held: bool) -> usize
    ensures { result ≡ pick held 32 0 }
{
    if held { 32 } else { 0 }
}

// Up to n rows. One local array of channels serves the whole call: a state copied for each row would cost more than
// the row. Beside it stand the channels' bytes and which are at rest: a channel that nothing happens to costs one test,
// and a record's channels are one copy.
fn walk(tables: Tables, s: State, n: u32, output: &mut [u8]) -> Progress
    requires { section_rule (lent_by tables) s n (length output.old) ≡ 0 }
    ensures answer { answered s (Ok result) ≡ sectioned (gave (spec.walk (lent_by tables.entry) n s)) }
    ensures written { output.new ≡ output_after output.old (gave (spec.walk (lent_by tables.entry) n s)) }
{
    let table = PeriodTable::new();
    let mut path = s.path;
    let mut channels = s.channels;
    let mut global = s.global_volume;
    let mut shown = shown_of(&channels);
    let mut rests = rests_of(&channels);
    for rows in 0..n {
        if path.ended {
            return given(rows, path, channels, global, s.switches);
        }
        let e = enter(tables.orders, tables.cells, path);
        let here = e.path;
        if here.ended {
            return given(rows, here, channels, global, s.switches);
        }
        let at = rows as usize * 536;
        let row = row_cells(tables.cells, e.pattern, here.place.row);
        let infos = here.s_info;
        let mut strikes: u32 = 0;
        let mut waiting = global;
        for i in first_entered(here.hold.held)..32 {
            // No `continue` for a quiet cell: the compiler would then work the channel's places out anew behind each other one.
            if !(is_quiet_at(row, i) & rests[i]) {
                let cell = cell_of(row, i);
                let c = channels[i];
                let played = enter_channel(
                    c,
                    cell,
                    infos[i],
                    tables.samples,
                    &table,
                    s.switches,
                    global,
                );
                let d = played.channel;
                put_channel(&mut shown, i * 16, d);
                rests[i] = is_at_rest(d);
                channels[i] = d;
                strikes = mark(strikes, i, played.struck);
                waiting = hear_volume(cell, waiting);
            }
        }
        let from = at + 24;
        output[from..from + 512].copy_from_slice(&shown);
        put_head(output, at, e, global, strikes);
        path = leave(tables.orders, e);
        global = waiting;
    }
    given(n, path, channels, global, s.switches)
}

// Section: up to n rows, each a record of 536 bytes; or rule 9, 11, 17 or 12. `typed` has what the theorems on a call
// presuppose.
#[tactic(auto, using(crate::proofs::Answers::refused_answer, crate::proofs::Answers::refused_output, crate::proofs::Answers::given_is))]
pub fn section(tables: Tables, s: State, n: u32, output: &mut [u8]) -> Result<Progress, Refusal>
    ensures answer { answered s result ≡ sectioned (section_of (lent_by tables.entry) s n (length output.old)) }
    ensures written { output.new ≡ output_after output.old (section_of (lent_by tables.entry) s n (length output.old)) }
    ensures typed { ByteTables (lent_by tables.entry) × Shaped s }
{
    check_section(tables, s, n, output.len())?;
    Ok(walk(tables, s, n, output))
}
