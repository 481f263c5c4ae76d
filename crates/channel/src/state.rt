// A channel's state.
ghost use Rattle.std.specs.Prelude.{◌≡◌};
ghost use Rattle.channel.specs.Opening.{opened_channel};

use tune::opening::{ChannelOpening, Fixed};

// The waveform of a vibrato or a tremolo.
#[derive(Clone, Copy)]
pub enum Waveform {
    Sine,
    RampDown,
    Square,
    Random,
}

// A vibrato or a tremolo: where it stands, its waveform, and whether a struck note leaves it there.
#[derive(Clone, Copy)]
pub struct Oscillator {
    pub waveform: Waveform,
    pub pos: u8,
    pub keep_pos_on_new_note: bool,
}

// The counters of a tremor, which no row's start changes.
#[derive(Clone, Copy)]
pub struct Tremor {
    pub on_counter: u8,
    pub off_counter: u8,
}

// A cell that SDx puts off to a later tick.
#[derive(Clone, Copy)]
pub struct PendingTrigger {
    pub fire_tick: u8,
    pub note: u8,
    pub instrument: u8,
    pub volume: u8,
}

// The Rust's Channel, with what goes together in structs of its own. The S slot (19) of its memory is the path's, slots 27 to
// 31 are spare. Fields are copied one by one or together with their neighbours: this order takes less time a row than the Rust's.
#[derive(Clone, Copy)]
pub struct Channel {
    pub frequency: f32,
    pub target_frequency: f32,
    pub sample_pos: f64,
    pub effect_memory: [u8; 32],
    pub instrument: u8,
    pub volume: u8,
    pub active: bool,
    pub voice_global_vol: u8,
    // a cell's byte, any number: no enum, for lomqashe's `state_of` and `state_bytes` keep each
    pub command: u8,
    pub pan: u8,
    pub vibrato: Oscillator,
    pub info: u8,
    pub last_note: u8,
    pub glissando: bool,
    pub tremor: Tremor,
    pub retrig_counter: u8,
    pub pending_delay: Option<PendingTrigger>,
    pub stored_volume: u8,
    pub tremolo: Oscillator,
    pub frozen: bool,
    // 0 none, 1 keyed, 2 released, as a number: no enum, for lomqashe's `state_of` and `state_bytes` keep any other byte too
    pub opl_voice: u8,
    pub fixed: Fixed,
}

// A channel after a cell was played, and whether a note was struck.
#[derive(Clone, Copy)]
pub struct Played {
    pub channel: Channel,
    pub struck: bool,
}

// The tune's two switches.
#[derive(Clone, Copy)]
pub struct Switches {
    pub amiga_limits: bool,
    pub fast_slides: bool,
}

// The channel as Open gives it: the Rust's Default with the opening values.
#[tactic(auto, unfolding(crate::specs::Opening::opened_channel))]
pub fn open_channel(o: ChannelOpening) -> Channel
    ensures { result ≡ opened_channel o }
{
    let vibrato = Oscillator {
        pos: 0,
        waveform: Waveform::Sine,
        keep_pos_on_new_note: false,
    };
    let tremor = Tremor {
        on_counter: 0,
        off_counter: 0,
    };
    let fixed = o.fixed;
    Channel {
        instrument: 0,
        frequency: 0.0,
        sample_pos: 0.0,
        volume: 0,
        pan: o.pan,
        active: false,
        target_frequency: 0.0,
        command: 0,
        info: 0,
        vibrato,
        tremolo: vibrato,
        last_note: 0,
        pending_delay: None,
        glissando: false,
        retrig_counter: 0,
        tremor,
        stored_volume: 0,
        effect_memory: [0; 32],
        frozen: false,
        fixed,
        opl_voice: 0,
        voice_global_vol: 64,
    }
}
