// The record that Strikes and Line are lent, and rule 13.
ghost use Rattle.std.specs.Prelude.{◌≡◌, ◌≤◌, IfOk, OnOk};
ghost use Rattle.tune.specs.Rules.{verdict};
ghost use Rattle.sheet.specs.Records.{record_rule};

use tune::rules::Refusal;

pub type Record = [u8; 536];

// The record, or rule 13 where it is not 536 bytes or the output has fewer than `least`.
#[tactic(auto, unfolding(crate::specs::Records::record_rule))]
pub fn check_record(row: &[u8], room: usize, least: usize) -> Result<&Record, Refusal>
    ensures rule { verdict result ≡ record_rule row.now room least }
    ensures same { IfOk result (λ r. r.now ≡ row.now) }
    ensures fits { OnOk result (least ≤ room) }
{
    if (row.len() != 536) | (room < least) {
        return Err(Refusal::Record);
    }
    Ok(row.as_array().unwrap())
}
