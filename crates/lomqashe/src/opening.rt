// The 176 bytes of opening values: 0 speed, 1 tempo, 2 global volume, 3 Amiga limits, 4 fast slides, 5 to 7 spare, 8 to 11
// rate, 12 to 15 spare; then 32 times pan, muted, right bank, AdLib, and from 144 on the 32 transpositions, signed bytes.
ghost use Rattle.std.specs.Prelude.{◌≡◌, ◌+◌, ◌*◌, ◌≤◌, ◌<◌, ◌++◌, map, length, take, drop};
ghost use Rattle.laws.specs.Entries.{tabulate, in_turn};
ghost use Rattle.lomqashe.specs.Openings.{setting_bytes, transposition_byte, fixed_at, setting_at, field_bytes, opening_bytes, opening_at};

use crate::numbers::put_block;
use std::array;
use tune::numbers::u32_at;
use tune::opening::{ChannelOpening, Fixed, Opening};
use tune::transposition::{signed_byte, signed_of};

// The opening values by their bytes.
pub type OpeningBytes = [u8; 176];

// Bytes 0 to 7.
fn field_bytes(o: Opening) -> [u8; 8]
    ensures { result ≡ field_bytes o }
{
    [
        o.speed,
        o.tempo,
        o.global_volume,
        u8::from(o.amiga_limits),
        u8::from(o.fast_slides),
        0,
        0,
        0,
    ]
}

fn channel_bytes(c: ChannelOpening) -> [u8; 4]
    ensures { result ≡ setting_bytes c }
{
    [
        c.pan,
        u8::from(c.fixed.muted),
        u8::from(c.fixed.right_bank),
        u8::from(c.fixed.adlib),
    ]
}

fn transposition_byte(c: ChannelOpening) -> u8
    ensures { result ≡ transposition_byte c }
{
    let fixed = c.fixed;
    signed_byte(fixed.transposition)
}

// The transpositions of 32 channels. (`map` would copy the channels.)
fn transposition_bytes(channels: &[ChannelOpening; 32]) -> [u8; 32]
    ensures { result ≡ map transposition_byte channels.now }
{
    let mut bytes = [0; 32];
    for i in 0..32 {
        bytes[i] = transposition_byte(channels[i]);
    }
    bytes
}

// The four bytes of 32 channels behind the head, one behind the other.
fn put_channels(out: &mut OpeningBytes, channels: &[ChannelOpening; 32])
    ensures { out.new ≡ take 16 out.old ++ (in_turn setting_bytes channels.now ++ drop 144 out.old) }
{
    for i in 0..32 {
        put_block(out, 16 + i * 4, channel_bytes(channels[i]));
    }
}

// Opening values as bytes.
pub fn put_opening(out: &mut OpeningBytes, o: Opening)
    ensures { out.new ≡ opening_bytes o }
{
    put_block(out, 0, field_bytes(o));
    put_block(out, 8, o.rate.to_le_bytes());
    put_block(out, 12, [0; 4]);
    put_channels(out, &o.channels);
    put_block(out, 144, transposition_bytes(&o.channels));
}

fn fixed_at(s: &OpeningBytes, at: usize, transposition: usize) -> Fixed
    requires { (at + 4 ≤ 176) × (transposition < 176) }
    ensures { result ≡ fixed_at s.now at transposition }
{
    Fixed {
        muted: s[at + 1] != 0,
        right_bank: s[at + 2] != 0,
        adlib: s[at + 3] != 0,
        transposition: signed_of(s[transposition]),
    }
}

fn channel_at(s: &OpeningBytes, at: usize, transposition: usize) -> ChannelOpening
    requires { (at + 4 ≤ 176) × (transposition < 176) }
    ensures { result ≡ setting_at s.now at transposition }
{
    ChannelOpening {
        pan: s[at],
        fixed: fixed_at(s, at, transposition),
    }
}

fn channels_of(s: &OpeningBytes) -> [ChannelOpening; 32]
    ensures { result ≡ tabulate 32 (λ i. setting_at s.now (16 + i * 4) (144 + i)) }
{
    array::from_fn(|i| channel_at(s, 16 + i * 4, 144 + i))
}

pub fn opening_of(s: &OpeningBytes) -> Opening
    ensures { result ≡ opening_at s.now }
{
    let channels = channels_of(s);
    Opening {
        speed: s[0],
        tempo: s[1],
        global_volume: s[2],
        rate: u32_at(s, 8),
        amiga_limits: s[3] != 0,
        fast_slides: s[4] != 0,
        channels,
    }
}
