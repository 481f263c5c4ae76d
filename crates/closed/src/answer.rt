// The two calls on closed tunes.
ghost use Rattle.std.specs.Prelude.{◌≡◌};
ghost use Rattle.tune.specs.Rules.{says};
ghost use Rattle.section.specs.Tables.{lent_by};
ghost use Rattle.section.specs.Typed.{ByteTables, ShapedOpening};
ghost use Rattle.section.specs.Open.{opened};
ghost use Rattle.closed.specs.Answers.{is_closed_says, open_closed_of};
ghost use Rattle.closed.specs.Ends.{most_rows, EndsWithin};

use crate::working::tables_closed;
use section::open::fresh_state;
use section::rules::check_open;
use section::state::State;
use tune::opening::Opening;
use tune::rules::{Refusal, refuse_if};
use tune::sizes::{Tables, check_sizes};

// Whether a tune is closed, or rule 9.
pub fn is_closed(tables: Tables) -> Result<bool, Refusal>
    ensures { says result ≡ is_closed_says (lent_by tables.entry) }
{
    check_sizes(tables)?;
    Ok(tables_closed(tables.orders, tables.cells))
}

// Open for closed tunes alone: what Open gives, or rule 14.
#[tactic(auto, using(tune::proofs::Checks::refused, tune::proofs::Checks::passed, crate::proofs::Answered::open_sized), unfolding(crate::specs::Answers::open_closed_of, crate::specs::Answers::open_closed_rule))]
pub fn open_closed(tables: Tables, o: Opening) -> Result<State, Refusal>
    ensures answer { opened result ≡ open_closed_of (lent_by tables.entry) o }
    ensures typed { ByteTables (lent_by tables.entry) × ShapedOpening o }
    ensures ends { (opened result).refusal ≡ 0
        → let t = lent_by tables.entry in EndsWithin (most_rows t) t (opened result).state }
{
    check_open(tables, o)?;
    refuse_if(
        !tables_closed(tables.orders, tables.cells),
        Refusal::NotClosed,
    )?;
    Ok(fresh_state(o))
}
