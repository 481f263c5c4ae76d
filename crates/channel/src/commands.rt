// Commands that act at a row's start.
ghost use Rattle.std.specs.Prelude.{◌≡◌, ◌<◌};
ghost use Rattle.pitch.specs.Slides.{factor_number, slid};
ghost use Rattle.pitch.specs.Limits.{limited};
ghost use Rattle.channel.specs.Commands.{fine_slid, finetuned, waveform_of, keeps_position, shaped, extended_by, commanded};

use crate::levels::{set_pan, slide_volume, stereo_pan};
use crate::pitches::frequency_on;
use crate::state::{Channel, Oscillator, Switches, Waveform};
use pitch::finetune::finetune;
use pitch::limits::clamp_amiga;
use pitch::periods::PeriodTable;
use pitch::slides::fine_slide;
use tune::numbers::{high_nibble, low_nibble};

// A frequency slid finely, up or down by a factor, within the Amiga limits.
fn slide_frequency(f: f32, up: bool, info: u8, amiga: bool) -> f32
    ensures { result ≡ limited amiga (slid f (factor_number up info)) }
{
    clamp_amiga(fine_slide(f, up, info), amiga)
}

#[tactic(auto, unfolding(crate::specs::Commands::fine_slid, crate::specs::Set::with_pitch))]
fn slide_finely(c: Channel, up: bool, amiga: bool) -> Channel
    ensures { result ≡ fine_slid c up amiga }
{
    if c.info < 0xE0 {
        return c;
    }
    Channel {
        frequency: slide_frequency(c.frequency, up, c.info, amiga),
        target_frequency: slide_frequency(c.target_frequency, up, c.info, amiga),
        ..c
    }
}

// S2x.
#[tactic(auto, unfolding(crate::specs::Commands::finetuned, crate::specs::Set::with_pitch))]
fn tune_finely(c: Channel, p: u8, table: &PeriodTable, amiga: bool) -> Channel
    requires nibble { p < 16 }
    ensures { result ≡ finetuned c p amiga }
{
    if c.last_note == 0 {
        return c;
    }
    let f = frequency_on(c, c.last_note, finetune(p as usize), table);
    let limited = clamp_amiga(f, amiga);
    Channel {
        frequency: limited,
        target_frequency: limited,
        ..c
    }
}

#[tactic(auto, unfolding(crate::specs::Commands::waveform_of))]
fn waveform_of(p: u8) -> Waveform
    ensures { result ≡ waveform_of p }
{
    match p % 4 {
        0 => Waveform::Sine,
        1 => Waveform::RampDown,
        2 => Waveform::Square,
        _ => Waveform::Random,
    }
}

fn keeps_position(p: u8) -> bool
    ensures { result ≡ keeps_position p }
{
    p / 4 % 2 == 1
}

// A vibrato or tremolo after S3x or S4x.
#[tactic(auto, unfolding(crate::specs::Commands::shaped))]
fn shape(o: Oscillator, p: u8) -> Oscillator
    ensures { result ≡ shaped o p }
{
    Oscillator {
        waveform: waveform_of(p),
        keep_pos_on_new_note: keeps_position(p),
        ..o
    }
}

// Sxp.
#[tactic(auto, unfolding(crate::specs::Commands::extended_by, crate::specs::Set::with_glissando, crate::specs::Set::with_vibrato, crate::specs::Set::with_tremolo, crate::specs::Set::with_pan))]
fn extended(c: Channel, x: u8, p: u8, table: &PeriodTable, amiga: bool) -> Channel
    requires nibble { p < 16 }
    ensures { result ≡ extended_by c x p amiga }
{
    match x {
        1 => Channel {
            glissando: p != 0,
            ..c
        },
        2 => tune_finely(c, p, table, amiga),
        3 => Channel {
            vibrato: shape(c.vibrato, p),
            ..c
        },
        4 => Channel {
            tremolo: shape(c.tremolo, p),
            ..c
        },
        8 => Channel { pan: p, ..c },
        10 => Channel {
            pan: stereo_pan(p, c.fixed.right_bank, c.pan),
            ..c
        },
        _ => c,
    }
}

// The channel's command on tick 0.
#[tactic(auto, unfolding(crate::specs::Commands::commanded, crate::specs::Set::with_volume, crate::specs::Set::with_pan))]
pub fn act(c: Channel, table: &PeriodTable, w: Switches) -> Channel
    ensures { result ≡ commanded c w }
{
    let x = high_nibble(c.info);
    let y = low_nibble(c.info);
    match c.command {
        4 => Channel {
            volume: slide_volume(c.volume, x, y, w.fast_slides),
            ..c
        },
        5 => slide_finely(c, false, w.amiga_limits),
        6 => slide_finely(c, true, w.amiga_limits),
        19 => extended(c, x, y, table, w.amiga_limits),
        24 => Channel {
            pan: set_pan(c.info),
            ..c
        },
        _ => c,
    }
}
