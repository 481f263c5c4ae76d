// A call of Section whose own promise is that it does as the original Rust: what `section` promises is enough for it.
ghost use Rattle.std.specs.Prelude.{◌≡◌};
ghost use Rattle.section.specs.Tables.{lent_by};
ghost use Rattle.section.specs.Section.{answered};
ghost use Rattle.original.specs.Untransposed.{Untransposed};
ghost use Rattle.original.specs.Call.{AsOriginal};

use section::state::{Progress, State};
use section::walk::section;
use tune::rules::Refusal;
use tune::sizes::Tables;

// Section; where it is not refused and no channel is transposed, as the original Rust. What Read gives is not transposed.
pub fn section_as_original(
    tables: Tables,
    s: State,
    n: u32,
    output: &mut [u8],
) -> Result<Progress, Refusal>
    ensures { (answered s result).refusal ≡ 0 → Untransposed s.channels → AsOriginal (lent_by tables.entry) s n output.old output.new (answered s result) }
{
    section(tables, s, n, output)
}
