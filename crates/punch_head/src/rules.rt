// The rules that refuse a step: 15, then 13.
ghost use Rattle.std.specs.Prelude.{◌≡◌};
ghost use Rattle.tune.specs.Rules.{verdict};
ghost use Rattle.punch_head.specs.Registers.{registers_rule, load_rule, head_rule};

use crate::status::has_other_bits;
use tune::rules::{Refusal, refuse_if};

// Rule 15: the registers are broken.
#[tactic(auto, unfolding(crate::specs::Registers::registers_rule))]
fn check_registers(registers: &[u8]) -> Result<(), Refusal>
    ensures { verdict result ≡ registers_rule registers.now }
{
    let broken = registers.len() != 16
        || registers[2] != 0
        || registers[3] != 0
        || has_other_bits(registers[1]);
    refuse_if(broken, Refusal::Registers)
}

// Rule 13: a load has no record of 536 bytes.
#[tactic(auto, unfolding(crate::specs::Registers::load_rule))]
fn check_load(command: u8, row: &[u8]) -> Result<(), Refusal>
    ensures { verdict result ≡ load_rule command row.now }
{
    refuse_if((command == 1) & (row.len() != 536), Refusal::Record)
}

// The rule that refuses a step, 15 first.
#[tactic(auto, using(tune::proofs::Checks::refused, tune::proofs::Checks::passed), unfolding(crate::specs::Registers::head_rule))]
pub fn check_step(registers: &[u8], command: u8, row: &[u8]) -> Result<(), Refusal>
    ensures { verdict result ≡ head_rule registers.now command row.now }
{
    check_registers(registers)?;
    check_load(command, row)
}
