// The opening values of a file: flags, levels, channel settings and pans.
ghost use Rattle.std.specs.Prelude.{◌≡◌, ◌%◌, ◌<◌, ◌≤◌, length};
ghost use Rattle.laws.specs.Entries.{tabulate};
ghost use Rattle.s3m.specs.Layout.{counts_of, pans_place};
ghost use Rattle.s3m.specs.Opening.{setting_pan, pan_of, fixed_by, channel_opening, channel_at, opening_of};

use crate::header::counts_of;
use packed::entry::{bit_of, byte_at};
use tune::numbers::{low_nibble, u16_at};
use tune::opening::{ChannelOpening, Fixed, Opening};

fn setting_of(byte: u8) -> u8
    ensures { result ≡ byte % 128 }
{
    byte & 127
}

fn setting_pan(setting: u8) -> u8
    ensures { result ≡ setting_pan setting }
{
    if setting < 8 {
        return 3;
    }
    if setting < 16 {
        return 12;
    }
    8
}

fn pan_of(setting: u8, pans: bool, byte: u8) -> u8
    ensures { result ≡ pan_of setting pans byte }
{
    if pans & (bit_of(usize::from(byte), 5) == 1) {
        return low_nibble(byte);
    }
    setting_pan(setting)
}

fn fixed_by(byte: u8) -> Fixed
    ensures { result ≡ fixed_by byte }
{
    let setting = setting_of(byte);
    Fixed {
        muted: 128 <= byte,
        right_bank: (8 <= setting) & (setting < 16),
        adlib: (16 <= setting) & (setting < 32),
        transposition: 0,
    }
}

fn channel_opening(byte: u8, pans: bool, pan: u8) -> ChannelOpening
    ensures { result ≡ channel_opening byte pans pan }
{
    ChannelOpening {
        pan: pan_of(setting_of(byte), pans, pan),
        fixed: fixed_by(byte),
    }
}

// Channel k, with the pans at a place.
fn channel_at(file: &[u8], pans_at: usize, k: usize) -> ChannelOpening
    requires { (k < 32) × (pans_at ≡ pans_place (counts_of file.now)) × (pans_at < 1000000) }
    ensures { result ≡ channel_at file.now k }
{
    let pans = byte_at(file, 53) == 252;
    channel_opening(byte_at(file, 64 + k), pans, byte_at(file, pans_at + k))
}

fn channels_of(file: &[u8]) -> [ChannelOpening; 32]
    requires { 96 ≤ length file.now }
    ensures { result ≡ tabulate 32 (channel_at file.now) }
{
    let pans_at = counts_of(file).pans_at();
    let mut channels = [channel_opening(0, false, 0); 32];
    for k in 0..32 {
        channels[k] = channel_at(file, pans_at, k);
    }
    channels
}

// The opening values, with the rate that is handed in.
pub fn opening_of(file: &[u8], rate: u32) -> Opening
    requires { 96 ≤ length file.now }
    ensures { result ≡ opening_of file.now rate }
{
    let channels = channels_of(file);
    let flags = usize::from(file[38]);
    Opening {
        speed: file[49],
        tempo: file[50],
        global_volume: file[48],
        rate,
        amiga_limits: bit_of(flags, 4) == 1,
        fast_slides: (bit_of(flags, 6) == 1) | (u16_at(file, 40) == 0x1300),
        channels,
    }
}
