// The 2,624 bytes of a state. Its head of 64: 0 order, 1 row, 2 loop order present, 3 loop order, 4 loop count present, 5
// loop count, 6 loop start row, 7 hold left, 8 held, 9 ended, 10 speed, 11 tempo, 12 global volume, 13 Amiga limits, 14
// fast slides, 15 spare, 16 to 19 rate, 20 and 21 remainder, 22 and 23 spare, 24 to 31 start, 32 to 63 the S infos. Then
// 32 channels of 80.
ghost use Rattle.std.specs.Prelude.{◌≡◌, length};
ghost use Rattle.lomqashe.specs.States.{option_of, field_bytes, state_bytes, path_of, state_of};
ghost use Rattle.lomqashe.specs.States as spec;

use crate::channels::{channels_of, put_channels};
use crate::numbers::put_block;
use channel::state::Switches;
use row_path::loops::{PatternLoop, Place};
use row_path::machine::{Clock, Hold, Path};
use section::state::State;
use tune::numbers::{bytes_at, u16_at, u32_at, u64_at};

// The bytes of a state.
pub type StateBytes = [u8; 2624];

fn present(o: Option<u8>) -> u8
    ensures { result ≡ spec.present o }
{
    u8::from(o.is_some())
}

fn option_of(there: u8, n: u8) -> Option<u8>
    ensures { result ≡ option_of there n }
{
    (there != 0).then_some(n)
}

// Bytes 0 to 15.
fn field_bytes(s: &State) -> [u8; 16]
    ensures { result ≡ field_bytes s.now }
{
    let path = s.path;
    let order = path.pattern_loop.order;
    let count = path.pattern_loop.count;
    [
        path.place.order,
        path.place.row,
        present(order),
        order.unwrap_or(0),
        present(count),
        count.unwrap_or(0),
        path.pattern_loop.start_row,
        path.hold.left,
        u8::from(path.hold.held),
        u8::from(path.ended),
        path.clock.speed,
        path.clock.tempo,
        s.global_volume,
        u8::from(s.switches.amiga_limits),
        u8::from(s.switches.fast_slides),
        0,
    ]
}

// The bytes of a state, from which it can be read again.
pub fn put_state(state: &mut StateBytes, s: State)
    ensures written { state.new ≡ state_bytes s }
    ensures kept { state_of (state_bytes s) ≡ s }
{
    let clock = s.path.clock;
    put_block(state, 0, field_bytes(&s));
    put_block(state, 16, clock.rate.to_le_bytes());
    put_block(state, 20, clock.remainder.to_le_bytes());
    put_block(state, 22, [0, 0]);
    put_block(state, 24, clock.start.to_le_bytes());
    put_block(state, 32, s.path.s_info);
    put_channels(state, &s.channels);
}

fn path_of(s: &StateBytes) -> Path
    ensures { result ≡ path_of s.now }
{
    let infos = bytes_at(s, 32);
    let lo = option_of(s[2], s[3]);
    let count = option_of(s[4], s[5]);
    Path {
        place: Place {
            order: s[0],
            row: s[1],
        },
        pattern_loop: PatternLoop {
            order: lo,
            start_row: s[6],
            count,
        },
        hold: Hold {
            left: s[7],
            held: s[8] != 0,
        },
        clock: Clock {
            speed: s[10],
            tempo: s[11],
            rate: u32_at(s, 16),
            start: u64_at(s, 24),
            remainder: u16_at(s, 20) as u16,
        },
        ended: s[9] != 0,
        s_info: infos,
    }
}

// Every 2,624 bytes are some state.
pub fn state_of(s: &StateBytes) -> State
    ensures { result ≡ state_of s.now }
{
    let switches = Switches {
        amiga_limits: s[13] != 0,
        fast_slides: s[14] != 0,
    };
    State {
        path: path_of(s),
        channels: channels_of(s),
        global_volume: s[12],
        switches,
    }
}
