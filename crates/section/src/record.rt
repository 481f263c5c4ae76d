// The 536 bytes of a record.
ghost use Rattle.std.specs.Prelude.{◌≡◌, not, ◌++◌, ◌+◌, ◌≤◌, T, length, take, drop};
ghost use Rattle.std.specs.Float.Ieee.{is_nan};
ghost use Rattle.section.specs.Records.{delay_tick, row_head, channel_bytes};

use channel::state::{Channel, PendingTrigger};
use row_path::machine::{Entered, row_length};
use tune::parts::put_at;

fn delay_tick(t: Option<PendingTrigger>) -> u8
    ensures { result ≡ delay_tick t }
{
    match t {
        None => 0,
        Some(p) => p.fire_tick,
    }
}

// The row head's 24 bytes.
fn head_bytes(e: Entered, global: u8, strikes: u32) -> [u8; 24]
    requires { (32 ≤ e.path.clock.tempo) × (e.path.clock.rate ≤ 100000) }
    ensures { result ≡ row_head e global strikes }
{
    let clock = e.path.clock;
    let s = clock.start.to_le_bytes();
    let m = strikes.to_le_bytes();
    let l = row_length(clock).to_le_bytes();
    [
        e.path.place.order,
        e.pattern,
        e.path.place.row,
        u8::from(e.path.hold.held),
        clock.speed,
        clock.tempo,
        global,
        0,
        s[0],
        s[1],
        s[2],
        s[3],
        s[4],
        s[5],
        s[6],
        s[7],
        m[0],
        m[1],
        m[2],
        m[3],
        l[0],
        l[1],
        l[2],
        l[3],
    ]
}

// A channel's 16 bytes.
fn channel_bytes(c: Channel) -> [u8; 16]
    requires { T (not (is_nan c.frequency)) × T (not (is_nan c.target_frequency)) }
    ensures { result ≡ channel_bytes c }
{
    let delay = c.pending_delay;
    let f = f32::to_bits(c.frequency).to_le_bytes();
    let t = f32::to_bits(c.target_frequency).to_le_bytes();
    [
        f[0],
        f[1],
        f[2],
        f[3],
        t[0],
        t[1],
        t[2],
        t[3],
        c.instrument,
        c.volume,
        c.pan,
        u8::from(c.active),
        c.last_note,
        delay_tick(delay),
        c.voice_global_vol,
        c.opl_voice,
    ]
}

// Writes a row head at a place of the output, whose other bytes stay.
pub fn put_head(output: &mut [u8], at: usize, e: Entered, global: u8, strikes: u32)
    requires { (at + 24 ≤ length output.old) × (32 ≤ e.path.clock.tempo) × (e.path.clock.rate ≤ 100000) }
    ensures { output.new ≡ take at output.old ++ (row_head e global strikes ++ drop (at + 24) output.old) }
{
    let bytes = head_bytes(e, global, strikes);
    put_at(output, at, &bytes);
}

// Writes a channel at a place of the output, whose other bytes stay.
pub fn put_channel(output: &mut [u8], at: usize, c: Channel)
    requires { (at + 16 ≤ length output.old) × T (not (is_nan c.frequency)) × T (not (is_nan c.target_frequency)) }
    ensures { output.new ≡ take at output.old ++ (channel_bytes c ++ drop (at + 16) output.old) }
{
    let bytes = channel_bytes(c);
    put_at(output, at, &bytes);
}
