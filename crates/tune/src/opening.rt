// The opening values of a tune, and rule 10.
ghost use Rattle.std.specs.Prelude.{◌≡◌};
ghost use Rattle.tune.specs.Rules.{verdict};
ghost use Rattle.tune.specs.Opening.{levels_broken, rate_broken, channel_broken, channels_kept, rule10};

use crate::rules::{Refusal, refuse_if};
use crate::transposition::is_beyond_24;

// What no row changes of a channel.
#[derive(Clone, Copy)]
pub struct Fixed {
    pub muted: bool,
    pub right_bank: bool,
    pub adlib: bool,
    // in semitones
    pub transposition: i8,
}

#[derive(Clone, Copy)]
pub struct ChannelOpening {
    pub pan: u8,
    pub fixed: Fixed,
}

#[derive(Clone, Copy)]
pub struct Opening {
    pub speed: u8,
    pub tempo: u8,
    pub global_volume: u8,
    // card rate, in micrometres a second
    pub rate: u32,
    pub amiga_limits: bool,
    pub fast_slides: bool,
    pub channels: [ChannelOpening; 32],
}

// Whether speed, tempo or global volume breaks rule 5.
pub fn levels_broken(speed: u8, tempo: u8, global_volume: u8) -> bool
    ensures { result ≡ levels_broken speed tempo global_volume }
{
    (speed == 0) | (tempo < 32) | (64 < global_volume)
}

pub fn rate_broken(rate: u32) -> bool
    ensures { result ≡ rate_broken rate }
{
    (rate == 0) | (100000 < rate)
}

fn channel_broken(c: ChannelOpening) -> bool
    ensures { result ≡ channel_broken c }
{
    let fixed = c.fixed;
    (15 < c.pan) | is_beyond_24(fixed.transposition)
}

fn channels_kept(channels: &[ChannelOpening; 32]) -> bool
    ensures { result ≡ channels_kept channels.now }
{
    channels.iter().all(|c| !channel_broken(*c))
}

// Rule 10: an opening value is out of range.
#[tactic(auto, unfolding(crate::specs::Opening::rule10))]
pub fn check_opening(o: Opening) -> Result<(), Refusal>
    ensures { verdict result ≡ rule10 o }
{
    let levels = levels_broken(o.speed, o.tempo, o.global_volume);
    let kept = channels_kept(&o.channels);
    let broken = levels | !kept | rate_broken(o.rate);
    refuse_if(broken, Refusal::OpeningValues)
}
