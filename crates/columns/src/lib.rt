// Records in column order, each column's bytes as differences, and back.
#![tactic(auto)]

pub mod bytes;
pub mod converting;
pub mod rule;
pub mod steps;
pub mod tiles;
pub mod witness;

ghost use Rattle.std.specs.Prelude.{◌≡◌};
ghost use Rattle.tune.specs.Rules.{says};
ghost use Rattle.columns.specs.Answers.{columns_say, store_output, restore_output};

use converting::convert;
use rule::check_sizes;
use steps::{Restoring, Storing};
use tune::rules::Refusal;

// Two calls, since C calls each. Store: the columns of m records over the whole output; or rule 16 refuses, and nothing is written.
#[tactic(auto, using(crate::proofs::Sizes::checked, crate::proofs::Sizes::left_alone, crate::proofs::Sizes::all_written), unfolding(crate::specs::Answers::store_output))]
pub fn store(records: &[u8], m: u32, out: &mut [u8]) -> Result<(), Refusal>
    ensures answer { says result ≡ columns_say records.now m out.old }
    ensures written { out.new ≡ store_output records.now m out.old }
{
    check_sizes(m, records.len(), out.len())?;
    convert::<Storing>(records, m as usize, out);
    Ok(())
}

// Restore: the m records of such columns over the whole output; or rule 16 refuses, and nothing is written.
#[tactic(auto, using(crate::proofs::Sizes::checked, crate::proofs::Sizes::left_alone, crate::proofs::Sizes::all_written), unfolding(crate::specs::Answers::restore_output))]
pub fn restore(columns: &[u8], m: u32, out: &mut [u8]) -> Result<(), Refusal>
    ensures answer { says result ≡ columns_say columns.now m out.old }
    ensures written { out.new ≡ restore_output columns.now m out.old }
{
    check_sizes(m, columns.len(), out.len())?;
    convert::<Restoring>(columns, m as usize, out);
    Ok(())
}
