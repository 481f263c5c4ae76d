// What holds of every list of steps, of two that this makes: it can be drawn only from what `step` promises.
ghost use Rattle.std.specs.Prelude.{[], ◌∷◌};
ghost use Rattle.tune.specs.Rules.{says};
ghost use Rattle.punch_head.specs.Histories.{Made, Promised, sixteen_zeros, Accounted};

use crate::actions::Action;
use crate::step;
use tune::rules::Refusal;

// What both steps said, and the registers behind each.
#[derive(Clone, Copy)]
pub struct TwoSteps {
    pub first: Result<Action, Refusal>,
    pub between: [u8; 16],
    pub second: Result<Action, Refusal>,
    pub registers: [u8; 16],
}

// Two steps from sixteen zero bytes.
pub fn two_steps(command: u8, row: &[u8], next_command: u8, next_row: &[u8]) -> TwoSteps
    ensures { (let first : Made = record { call = record { command = command; row = row.now }; says = says result.first; after = result.between } in
        let second : Made = record { call = record { command = next_command; row = next_row.now }; says = says result.second; after = result.registers } in
        Promised sixteen_zeros (first ∷ second ∷ []) × Accounted result.registers (first ∷ second ∷ [])) }
{
    let mut registers = [0u8; 16];
    let first = step(&mut registers, command, row);
    let between = registers;
    let second = step(&mut registers, next_command, next_row);
    TwoSteps {
        first,
        between,
        second,
        registers,
    }
}
