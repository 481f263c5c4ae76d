// The frequency of a note.
ghost use Rattle.std.specs.Prelude.{◌≡◌, ◌<◌, max, T};
ghost use Rattle.std.specs.Float.Ieee.{le};
ghost use Rattle.pitch.specs.Periods.{note_number};
ghost use Rattle.pitch.specs.Frequency.{narrowed, least, most, period_at, frequency_of, note_frequency};

use crate::periods::PeriodTable;

// x at 32 bits, nearest with ties to even. The exponent's field loses the difference of the two biases, 896, and the
// digits are rounded to 29 fewer, a carry going into the field.
#[tactic(auto, using(crate::proofs::Narrowing::enough, crate::proofs::Narrowing::small, crate::proofs::Narrowing::no_nan_bits, crate::proofs::Narrowing::narrow_is))]
fn narrow(x: f64) -> f32
    requires above { T (le least x) }
    requires below { T (le x most) }
    ensures { result ≡ narrowed x }
{
    let p = f64::to_bits(x) - 0x3800_0000_0000_0000;
    let q = (p + 0xfff_ffff + p / 0x2000_0000 % 2) / 0x2000_0000;
    f32::from_bits(q as u32)
}

// The period of a note byte with a transposition, at a c5 speed.
#[tactic(auto, using(crate::proofs::Falling::period_most, crate::proofs::Transposed::number_below), unfolding(crate::specs::Frequency::period_at))]
fn period_at(note: u8, transposition: i8, c5: u32, table: &PeriodTable) -> u32
    ensures { result ≡ period_at (note_number note transposition) c5 }
{
    8363 * table.note_period(note, transposition) / c5.max(1)
}

#[tactic(auto, using(crate::proofs::Division::clock_is, crate::proofs::Division::at_zero, crate::proofs::Division::above_zero, crate::proofs::Division::from_least, crate::proofs::Division::to_most))]
fn frequency_of(period: u32) -> f32
    requires { period < 268435456 }
    ensures { result ≡ frequency_of period }
{
    if period == 0 {
        return 0.0;
    }
    narrow(14317456.0 / (period as f64))
}

// The frequency of a note byte with a transposition, at a c5 speed.
#[tactic(auto, using(crate::proofs::Falling::period_small, crate::proofs::Transposed::number_below), unfolding(crate::specs::Frequency::note_frequency))]
pub fn note_to_frequency(note: u8, transposition: i8, c5: u32, table: &PeriodTable) -> f32
    ensures { result ≡ note_frequency note transposition c5 }
{
    frequency_of(period_at(note, transposition, c5, table))
}
