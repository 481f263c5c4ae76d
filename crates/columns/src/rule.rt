// Rule 16, the only one of both calls.
ghost use Rattle.std.specs.Prelude.{◌≡◌};
ghost use Rattle.tune.specs.Rules.{verdict};
ghost use Rattle.columns.specs.Answers.{sizes_rule};

use tune::rules::{Refusal, refuse_if};

// Refused where m is not 1 to 65,535 or a length is not m × 536.
#[tactic(auto, unfolding(crate::specs::Answers::sizes_rule))]
pub fn check_sizes(m: u32, input: usize, output: usize) -> Result<(), Refusal>
    ensures { verdict result ≡ sizes_rule m input output }
{
    let size = m as usize * 536;
    refuse_if(
        m == 0 || 65535 < m || input != size || output != size,
        Refusal::ColumnSizes,
    )
}
