// That chosen channels stay when the others are re-voiced, and that levels stay within their limits, of calls that this makes:
// both can be drawn only from what `open` and `section` promise.
ghost use Rattle.std.specs.Prelude.{◌≡◌, ◌≢◌, [], ◌∷◌};
ghost use Rattle.section.specs.Tables.{Tune, lent_by};
ghost use Rattle.section.specs.Open.{Opened, open_of, opened};
ghost use Rattle.section.specs.Section.{Sectioned, Refused, sectioned, answered};
ghost use Rattle.section.specs.Made.{Made};
ghost use Rattle.section.specs.Levelled.{LevelsKept};
ghost use Rattle.noninterference.specs.Made.{MadeOn, HoweverRevoiced};

use section::open::open;
use section::state::{Progress, State};
use section::walk::section;
use tune::opening::Opening;
use tune::rules::Refusal;
use tune::sizes::Tables;

// What Open answered, and the two calls.
#[derive(Clone, Copy)]
pub struct TwoCalls {
    pub opened: Result<State, Refusal>,
    pub first: Result<Progress, Refusal>,
    pub second: Result<Progress, Refusal>,
}

// The state behind a call: what it gave, or beside a refusal what it was handed.
fn state_behind(s: State, answer: Result<Progress, Refusal>) -> State
    ensures { result ≡ (answered s answer).state }
{
    match answer {
        Ok(p) => p.state,
        Err(_) => s,
    }
}

// Opens a tune and makes two calls of Section, the second on the state behind the first. Where Open refuses, no call is
// made: its refusal stands for both answers, and the outputs are as they were.
pub fn two_calls(
    tables: Tables,
    o: Opening,
    size: u32,
    next_size: u32,
    output: &mut [u8],
    next_output: &mut [u8],
) -> TwoCalls
    ensures opens { opened result.opened ≡ open_of (lent_by tables.entry) o }
    ensures refused { (let given : Opened = opened result.opened in
        given.refusal ≢ 0
        → let none : Sectioned = sectioned (Refused given.refusal given.state) in
        (answered given.state result.first ≡ none) × (answered given.state result.second ≡ none) × (output.new ≡ output.old) × (next_output.new ≡ next_output.old)) }
    ensures kept { (let given : Opened = opened result.opened in
        given.refusal ≡ 0
        → let u : Tune = record { tables = lent_by tables.entry; opening = o } in
        let first : Made = record { size = size; before = output.old; after = output.new; answer = answered given.state result.first } in
        let second : Made = record { size = next_size; before = next_output.old; after = next_output.new; answer = answered first.answer.state result.second } in
        MadeOn u given (first ∷ second ∷ []) × HoweverRevoiced u (first ∷ second ∷ []) × LevelsKept (first ∷ second ∷ [])) }
{
    let opened = open(tables, o);
    let s = match opened {
        Ok(s) => s,
        Err(refusal) => {
            return TwoCalls {
                opened,
                first: Err(refusal),
                second: Err(refusal),
            };
        }
    };
    let first = section(tables, s, size, output);
    let next = state_behind(s, first);
    let second = section(tables, next, next_size, next_output);
    TwoCalls {
        opened,
        first,
        second,
    }
}
