// Both identities, of two calls that this makes: they can be drawn only from what `store` and `restore` promise.
ghost use Rattle.std.specs.Prelude.{◌≡◌};
ghost use Rattle.tune.specs.Rules.{says};
ghost use Rattle.columns.specs.Answers.{store_output, restore_output};
ghost use Rattle.columns.specs.Trips.{trip_says, trip_output};

use crate::{restore, store};
use tune::rules::Refusal;

// Two functions, a theorem each. Stores records, and restores what was written.
pub fn store_and_restore(
    records: &[u8],
    m: u32,
    columns: &mut [u8],
    back: &mut [u8],
) -> Result<(), Refusal>
    ensures answer { says result ≡ trip_says records.now m columns.old back.old }
    ensures written { back.new ≡ trip_output records.now m columns.old back.old }
    ensures between { columns.new ≡ store_output records.now m columns.old }
{
    store(records, m, columns)?;
    restore(columns, m, back)
}

// Restores columns, and stores what was written.
pub fn restore_and_store(
    columns: &[u8],
    m: u32,
    records: &mut [u8],
    back: &mut [u8],
) -> Result<(), Refusal>
    ensures answer { says result ≡ trip_says columns.now m records.old back.old }
    ensures written { back.new ≡ trip_output columns.now m records.old back.old }
    ensures between { records.new ≡ restore_output columns.now m records.old }
{
    restore(columns, m, records)?;
    store(records, m, back)
}
