// The period of a note.
ghost use Rattle.std.specs.Prelude.{◌≡◌, ◌+◌, ◌*◌, ◌/◌, ◌%◌, ◌<◌};
ghost use Rattle.tune.specs.Transposition.{raised128};
ghost use Rattle.pitch.specs.Periods.{period_of, note_number};
ghost use Rattle.pitch.specs.Octaves.{kept_periods};

use tune::numbers::high_nibble;
use tune::transposition::raised_by_128;

// The 12 periods of octave 0, then the 24 of octaves 7 and 8.
const PERIODS: [u32; 36] = [
    27392, 25856, 24384, 23040, 21696, 20480, 19328, 18240, 17216, 16256, 15360, 14496, 214, 202,
    190, 180, 170, 160, 151, 143, 135, 127, 120, 113, 107, 101, 95, 90, 85, 80, 75, 71, 67, 63, 60,
    56,
];

// The 36 periods, to be lent. An array is built where it is named: a loop builds the table once, before it starts.
#[derive(Drop)]
pub struct PeriodTable {
    pub entries: [u32; 36],
    pub ghost kept: { entries ≡ kept_periods },
}

impl PeriodTable {
    pub fn new() -> Self
        ensures { result.entries ≡ kept_periods }
    {
        PeriodTable { entries: PERIODS }
    }

    // The period of note number n: up to 83 the octave 0 entry shifted right by the octave.
    #[tactic(auto, using(crate::proofs::Shifted::by_shift, crate::proofs::Shifted::by_entry))]
    pub fn period(&self, n: usize) -> u32
        requires in_table { n < 108 }
        ensures { result ≡ period_of n }
    {
        if n < 84 {
            self.entries[n % 12] >> (n / 12)
        } else {
            self.entries[n - 72]
        }
    }

    // A note byte's period with a transposition. Numbers 0 to 83 are not cut: there the cut would cost each note three
    // instructions.
    #[tactic(auto, using(crate::proofs::Transposed::number_passed))]
    pub fn note_period(&self, note: u8, transposition: i8) -> u32
        ensures { result ≡ period_of (note_number note transposition) }
    {
        let n = raised_number(note, transposition);
        if (n < 128) | (212 <= n) {
            return self.period(note_number(note, transposition));
        }
        self.period(n - 128)
    }
}

// Octave × 12 + semitone, not cut: a note byte has 16 for an octave, 4 too many.
fn uncut_number(note: u8) -> usize
    ensures { result ≡ note / 16 * 12 + note % 16 }
{
    note as usize - high_nibble(note) as usize * 4
}

// The transposition added, all raised by 128 so that nothing is below 0.
fn raised_number(note: u8, transposition: i8) -> usize
    ensures { result ≡ note / 16 * 12 + note % 16 + raised128 transposition }
{
    uncut_number(note) + raised_by_128(transposition) as usize
}

// A note byte's number with a transposition.
#[tactic(auto, using(crate::proofs::Transposed::number_passed))]
pub fn note_number(note: u8, transposition: i8) -> usize
    ensures value { result ≡ note_number note transposition }
    ensures within { result < 108 }
{
    raised_number(note, transposition)
        .saturating_sub(128)
        .min(107)
}
