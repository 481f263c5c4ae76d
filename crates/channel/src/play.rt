// Playing a cell's instrument, note and volume.
ghost use Rattle.std.specs.Prelude.{◌≡◌};
ghost use Rattle.channel.specs.Play.{unstruck, strikes, renewed, loaded, cut, aimed, start_of, voice_of, started, slides, note_on, slid_back, noted, volumed, play_cell};

use crate::levels::{clamp_pcm_volume, load_peak};
use crate::pitches::frequency_on;
use crate::state::{Channel, Oscillator, Played};
use pitch::limits::clamp_amiga;
use pitch::offset::resolve_sample_offset;
use pitch::periods::PeriodTable;
use tune::cells::Cell;
use tune::samples::{Sample, sample_of};

fn unstruck(channel: Channel) -> Played
    ensures { result ≡ unstruck channel }
{
    Played {
        channel,
        struck: false,
    }
}

fn strikes(channel: Channel) -> Played
    ensures { result ≡ strikes channel }
{
    Played {
        channel,
        struck: true,
    }
}

#[tactic(auto, unfolding(crate::specs::Play::loaded, crate::specs::Play::loaded_from, crate::specs::Set::with_instrument, crate::specs::Set::with_stored))]
fn load_from(c: Channel, instrument: u8, named: Option<Sample>, global: u8) -> Channel
    ensures { result ≡ loaded c instrument named global }
{
    if instrument == 0 {
        return c;
    }
    let Some(s) = named else {
        return Channel { instrument, ..c };
    };
    let v = load_peak(c.fixed.adlib, s.volume);
    Channel {
        instrument,
        volume: v,
        stored_volume: v,
        voice_global_vol: global,
        ..c
    }
}

#[tactic(auto, unfolding(crate::specs::Play::cut, crate::specs::Set::with_voice, crate::specs::Set::with_cut))]
fn cut_note(c: Channel) -> Channel
    ensures { result ≡ cut c }
{
    if c.fixed.adlib & (c.opl_voice != 0) {
        return Channel { opl_voice: 2, ..c };
    }
    Channel {
        active: false,
        frequency: 0.0,
        ..c
    }
}

// A slide's target.
#[tactic(auto, unfolding(crate::specs::Play::aimed, crate::specs::Set::with_pitch, crate::specs::Set::with_note))]
fn aim(c: Channel, note: u8, f: f32, amiga: bool) -> Channel
    ensures { result ≡ aimed c note f amiga }
{
    Channel {
        frequency: clamp_amiga(c.frequency, amiga),
        target_frequency: clamp_amiga(f, amiga),
        last_note: note,
        ..c
    }
}

#[tactic(auto, unfolding(crate::specs::Play::start_of))]
fn start_of(cell: Cell, s: Sample) -> f64
    ensures { result ≡ start_of cell s }
{
    if cell.command == 15 {
        let offset = cell.info as u32 * 256;
        return resolve_sample_offset(offset, s.looped, s.loop_start, s.loop_end, s.length);
    }
    0.0
}

#[tactic(auto, unfolding(crate::specs::Play::voice_of))]
fn voice_of(c: Channel, s: Sample) -> u8
    ensures { result ≡ voice_of c s }
{
    if c.fixed.adlib {
        u8::from(s.is_adlib())
    } else {
        c.opl_voice
    }
}

// A vibrato or tremolo at a struck note.
#[tactic(auto, unfolding(crate::specs::Play::renewed))]
fn renewed(o: Oscillator) -> Oscillator
    ensures { result ≡ renewed o }
{
    Oscillator {
        pos: if o.keep_pos_on_new_note { o.pos } else { 0 },
        ..o
    }
}

// A struck note.
#[tactic(auto, unfolding(crate::specs::Play::started, crate::specs::Set::with_start, crate::specs::Set::with_pitch))]
fn start(c: Channel, cell: Cell, f: f32, s: Sample, amiga: bool) -> Channel
    ensures { result ≡ started c cell f s amiga }
{
    let limited = clamp_amiga(f, amiga);
    Channel {
        frequency: limited,
        target_frequency: limited,
        sample_pos: start_of(cell, s),
        active: true,
        vibrato: renewed(c.vibrato),
        tremolo: renewed(c.tremolo),
        last_note: cell.note,
        frozen: false,
        opl_voice: voice_of(c, s),
        ..c
    }
}

fn is_slide(command: u8) -> bool
    ensures { result ≡ slides command }
{
    matches!(command, 7 | 12)
}

#[tactic(auto, unfolding(crate::specs::Play::note_on))]
fn note_on(
    c: Channel,
    cell: Cell,
    named: Option<Sample>,
    table: &PeriodTable,
    amiga: bool,
) -> Played
    ensures { result ≡ note_on c cell named amiga }
{
    let Some(s) = named else {
        return unstruck(c);
    };
    let f = frequency_on(c, cell.note, s.c5_speed, table);
    if is_slide(cell.command) & (c.frequency > 0.0) {
        return unstruck(aim(c, cell.note, f, amiga));
    }
    strikes(start(c, cell, f, s, amiga))
}

#[tactic(auto, unfolding(crate::specs::Play::slid_back))]
fn slide_back(
    c: Channel,
    cell: Cell,
    named: Option<Sample>,
    table: &PeriodTable,
    amiga: bool,
) -> Channel
    ensures { result ≡ slid_back c cell named amiga }
{
    let Some(s) = named else {
        return c;
    };
    if is_slide(cell.command) & (c.last_note != 0) {
        let f = frequency_on(c, c.last_note, s.c5_speed, table);
        return aim(c, c.last_note, f, amiga);
    }
    c
}

#[tactic(auto, unfolding(crate::specs::Play::noted))]
fn note_column(
    c: Channel,
    cell: Cell,
    named: Option<Sample>,
    table: &PeriodTable,
    amiga: bool,
) -> Played
    ensures { result ≡ noted c cell named amiga }
{
    match cell.note {
        254 => unstruck(cut_note(c)),
        255 => unstruck(slide_back(c, cell, named, table, amiga)),
        _ => note_on(c, cell, named, table, amiga),
    }
}

#[tactic(auto, unfolding(crate::specs::Play::volumed, crate::specs::Set::with_stored))]
fn volume_column(c: Channel, volume: u8, global: u8) -> Channel
    ensures { result ≡ volumed c volume global }
{
    if volume == 255 {
        return c;
    }
    let v = clamp_pcm_volume(volume as u16);
    Channel {
        volume: v,
        stored_volume: v,
        voice_global_vol: global,
        ..c
    }
}

// A cell's instrument, note and volume; its command and info are the ones in force.
#[tactic(auto, unfolding(crate::specs::Play::play_cell, crate::specs::Play::volumed_after))]
pub fn play_cell(
    c: Channel,
    cell: Cell,
    samples: &[u8],
    table: &PeriodTable,
    amiga: bool,
    global: u8,
) -> Played
    ensures { result ≡ play_cell c cell samples.now amiga global }
{
    let instrument = if cell.instrument == 0 {
        c.instrument
    } else {
        cell.instrument
    };
    let named = sample_of(samples, instrument);
    let d = load_from(c, cell.instrument, named, global);
    let e = note_column(d, cell, named, table, amiga);
    Played {
        channel: volume_column(e.channel, cell.volume, global),
        ..e
    }
}
