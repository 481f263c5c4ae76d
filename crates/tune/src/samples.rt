// A sample by value, and the sample that an instrument number names.
ghost use Rattle.std.specs.Prelude.{◌≡◌, ◌+◌, ◌≤◌, length};
ghost use Rattle.tune.specs.Samples.{sample_at, sample_of, is_adlib};

use crate::numbers::u32_at;

#[derive(Clone, Copy)]
pub struct Sample {
    // any byte, as a lent table has it: only whether it is AdLib is asked
    pub kind: u8,
    pub volume: u8,
    pub looped: bool,
    pub length: u32,
    pub loop_start: u32,
    pub loop_end: u32,
    pub c5_speed: u32,
}

impl Sample {
    pub fn is_adlib(self) -> bool
        ensures { result ≡ is_adlib self }
    {
        (2 <= self.kind) & (self.kind <= 7)
    }
}

#[tactic(auto, unfolding(crate::specs::Samples::sample_at))]
fn sample_at(samples: &[u8], at: usize) -> Sample
    requires { at + 20 ≤ length samples.now }
    ensures { result ≡ sample_at samples.now at }
{
    Sample {
        kind: samples[at],
        volume: samples[at + 1],
        looped: samples[at + 2] != 0,
        length: u32_at(samples, at + 4),
        loop_start: u32_at(samples, at + 8),
        loop_end: u32_at(samples, at + 12),
        c5_speed: u32_at(samples, at + 16),
    }
}

// The Rust's `samples.get(instrument - 1)`, with none for instrument 0.
#[tactic(auto, unfolding(crate::specs::Samples::sample_of))]
pub fn sample_of(samples: &[u8], instrument: u8) -> Option<Sample>
    ensures { result ≡ sample_of samples.now instrument }
{
    let end = usize::from(instrument) * 20;
    if instrument == 0 {
        return None;
    }
    if samples.len() < end {
        return None;
    }
    Some(sample_at(samples, end - 20))
}
