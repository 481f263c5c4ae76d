// A note on a channel.
ghost use Rattle.std.specs.Prelude.{◌≡◌};
ghost use Rattle.channel.specs.Pitches.{frequency_on};

use crate::state::Channel;
use pitch::frequency::note_to_frequency;
use pitch::periods::PeriodTable;

// The frequency of a note byte at a c5 speed, with the channel's transposition.
pub fn frequency_on(c: Channel, note: u8, c5: u32, table: &PeriodTable) -> f32
    ensures { result ≡ frequency_on c note c5 }
{
    note_to_frequency(note, c.fixed.transposition, c5, table)
}
