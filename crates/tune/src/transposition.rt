// A transposition in semitones, a signed number.
ghost use Rattle.std.specs.Prelude.{◌≡◌, ◌<◌};
ghost use Rattle.tune.specs.Transposition.{beyond24, signed_byte, signed_of, raised128};

pub fn is_beyond_24(t: i8) -> bool
    ensures { result ≡ beyond24 t }
{
    (t < -24) | (24 < t)
}

// Raised by 128, so that no number is below 0.
pub fn raised_by_128(t: i8) -> u8
    ensures { (result ≡ raised128 t) × (result < 256) }
{
    (t as i16 + 128) as u8
}

// Its byte.
pub fn signed_byte(t: i8) -> u8
    ensures { result ≡ signed_byte t }
{
    t.cast_unsigned()
}

// The number of a byte.
pub fn signed_of(b: u8) -> i8
    ensures { result ≡ signed_of b }
{
    b.cast_signed()
}
