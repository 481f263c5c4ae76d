// The 80 bytes of a channel: 0 to 3 frequency, 4 to 7 target frequency, 8 to 15 sample position, by their bits; 16
// instrument, 17 volume, 18 pan, 19 active, 20 command, 21 info, 22 vibrato position, 23 tremolo position, 24 last note,
// 25 delay present, 26 to 29 its tick, note, instrument and volume, 30 glissando, 31 vibrato and 32 tremolo waveform, 33
// retrig counter, 34 and 35 tremor on and off counters, 36 stored volume, 37 and 38 vibrato and tremolo kept over a new
// note, 39 muted, 40 frozen, 41 right bank, 42 AdLib, 43 AdLib voice, 44 voice global volume, 45 transposition, a
// signed byte, 46 and 47 spare, 48 to 79 effect memory.
ghost use Rattle.std.specs.Prelude.{◌≡◌, ◌+◌, ◌*◌, ◌≤◌, ◌<◌, ◌++◌, length, take, drop};
ghost use Rattle.laws.specs.Entries.{tabulate, in_turn};
ghost use Rattle.lomqashe.specs.Channels.{waveform_byte, waveform_of, delay_bytes, delay_at, first_fields, last_fields, channel_bytes, oscillator_of, fixed_of, channel_of};

use crate::numbers::put_block;
use crate::state::StateBytes;
use channel::state::{Channel, Oscillator, PendingTrigger, Tremor, Waveform};
use std::num::{
    f32_from_bits_with_nan, f32_to_bits_with_nan, f64_from_bits_with_nan, f64_to_bits_with_nan,
};
use tune::numbers::{bytes_at, u32_at, u64_at};
use tune::opening::Fixed;
use tune::transposition::{signed_byte, signed_of};

// A channel's part of a state.
pub type ChannelBytes = [u8; 80];

// 0 sine, 1 ramp down, 2 square, 3 random.
fn waveform_byte(w: Waveform) -> u8
    ensures { result ≡ waveform_byte w }
{
    w as u8
}

// A waveform is read by the low two bits. (No `From`: the type belongs to another crate.)
fn waveform_of(b: u8) -> Waveform
    ensures { result ≡ waveform_of b }
{
    match b % 4 {
        0 => Waveform::Sine,
        1 => Waveform::RampDown,
        2 => Waveform::Square,
        _ => Waveform::Random,
    }
}

// Whether a cell is put off, and its tick, note, instrument and volume, 0 where none is.
fn delay_bytes(d: Option<PendingTrigger>) -> [u8; 5]
    ensures { result ≡ delay_bytes d }
{
    match d {
        None => [0, 0, 0, 0, 0],
        Some(t) => [1, t.fire_tick, t.note, t.instrument, t.volume],
    }
}

fn delay_of(part: &ChannelBytes) -> Option<PendingTrigger>
    ensures { result ≡ delay_at part.now 25 }
{
    (part[25] != 0).then_some(PendingTrigger {
        fire_tick: part[26],
        note: part[27],
        instrument: part[28],
        volume: part[29],
    })
}

// Bytes 16 to 24.
fn first_fields(c: Channel) -> [u8; 9]
    ensures { result ≡ first_fields c }
{
    [
        c.instrument,
        c.volume,
        c.pan,
        u8::from(c.active),
        c.command,
        c.info,
        c.vibrato.pos,
        c.tremolo.pos,
        c.last_note,
    ]
}

// Bytes 30 to 47.
fn last_fields(c: Channel) -> [u8; 18]
    ensures { result ≡ last_fields c }
{
    let fixed = c.fixed;
    [
        u8::from(c.glissando),
        waveform_byte(c.vibrato.waveform),
        waveform_byte(c.tremolo.waveform),
        c.retrig_counter,
        c.tremor.on_counter,
        c.tremor.off_counter,
        c.stored_volume,
        u8::from(c.vibrato.keep_pos_on_new_note),
        u8::from(c.tremolo.keep_pos_on_new_note),
        u8::from(fixed.muted),
        u8::from(c.frozen),
        u8::from(fixed.right_bank),
        u8::from(fixed.adlib),
        c.opl_voice,
        c.voice_global_vol,
        signed_byte(fixed.transposition),
        0,
        0,
    ]
}

// Writes a channel at a place.
fn put_channel(out: &mut [u8], at: usize, c: Channel)
    requires { at + 80 ≤ length out.old }
    ensures { out.new ≡ take at out.old ++ (channel_bytes c ++ drop (at + 80) out.old) }
{
    put_block(out, at, f32_to_bits_with_nan(c.frequency).to_le_bytes());
    put_block(
        out,
        at + 4,
        f32_to_bits_with_nan(c.target_frequency).to_le_bytes(),
    );
    put_block(
        out,
        at + 8,
        f64_to_bits_with_nan(c.sample_pos).to_le_bytes(),
    );
    put_block(out, at + 16, first_fields(c));
    put_block(out, at + 25, delay_bytes(c.pending_delay));
    put_block(out, at + 30, last_fields(c));
    put_block(out, at + 48, c.effect_memory);
}

// 32 channels behind a state's head, one behind the other.
pub fn put_channels(state: &mut StateBytes, channels: &[Channel; 32])
    ensures { state.new ≡ take 64 state.old ++ in_turn channel_bytes channels.now }
{
    for i in 0..32 {
        put_channel(state, 64 + i * 80, channels[i]);
    }
}

// The vibrato (0) or the tremolo (1).
fn oscillator_of(part: &ChannelBytes, k: usize) -> Oscillator
    requires { k ≤ 1 }
    ensures { result ≡ oscillator_of part.now k }
{
    Oscillator {
        pos: part[22 + k],
        waveform: waveform_of(part[31 + k]),
        keep_pos_on_new_note: part[37 + k] != 0,
    }
}

// What no row changes.
fn fixed_of(part: &ChannelBytes) -> Fixed
    ensures { result ≡ fixed_of part.now }
{
    Fixed {
        muted: part[39] != 0,
        right_bank: part[41] != 0,
        adlib: part[42] != 0,
        transposition: signed_of(part[45]),
    }
}

fn channel_of(part: &ChannelBytes) -> Channel
    ensures { result ≡ channel_of part.now }
{
    let pending_delay = delay_of(part);
    let vibrato = oscillator_of(part, 0);
    let tremolo = oscillator_of(part, 1);
    let tremor = Tremor {
        on_counter: part[34],
        off_counter: part[35],
    };
    let fixed = fixed_of(part);
    let effect_memory = bytes_at(part, 48);
    Channel {
        instrument: part[16],
        frequency: f32_from_bits_with_nan(u32_at(part, 0)),
        sample_pos: f64_from_bits_with_nan(u64_at(part, 8)),
        volume: part[17],
        pan: part[18],
        active: part[19] != 0,
        target_frequency: f32_from_bits_with_nan(u32_at(part, 4)),
        command: part[20],
        info: part[21],
        vibrato,
        tremolo,
        last_note: part[24],
        pending_delay,
        glissando: part[30] != 0,
        retrig_counter: part[33],
        tremor,
        stored_volume: part[36],
        effect_memory,
        frozen: part[40] != 0,
        fixed,
        opl_voice: part[43],
        voice_global_vol: part[44],
    }
}

// Channel i behind a state's head.
fn channel_at(s: &StateBytes, i: usize) -> Channel
    requires { i < 32 }
    ensures { result ≡ channel_of (take 80 (drop (64 + i * 80) s.now)) }
{
    let at = 64 + i * 80;
    channel_of(s[at..at + 80].as_array().unwrap())
}

// The 32 channels behind a state's head. (`from_fn` would copy them once more.)
pub fn channels_of(s: &StateBytes) -> [Channel; 32]
    ensures { result ≡ tabulate 32 (λ i. channel_of (take 80 (drop (64 + i * 80) s.now))) }
{
    let mut channels = [channel_at(s, 0); 32];
    for i in 0..32 {
        channels[i] = channel_at(s, i);
    }
    channels
}
