// The punch head's sixteen registers, which a command steps.
#![tactic(auto)]

pub mod actions;
pub mod rules;
pub mod status;
pub mod witness;

ghost use Rattle.std.specs.Prelude.{◌≡◌, ◌++◌, length, take};
ghost use Rattle.tune.specs.Rules.{says};
ghost use Rattle.punch_head.specs.Registers.{loaded, row_mask, row_start, head_rule};
ghost use Rattle.punch_head.specs.Steps.{action_of, registers_by, step_says, step_registers};

use actions::{Action, action_of};
use rules::check_step;
use status::{is_loaded, status_by};
use tune::parts::put_at;
use tune::rules::Refusal;

// A record's mask and start into the registers.
fn take_row(registers: &mut [u8], row: &[u8])
    requires { (length registers.old ≡ 16) × (length row.now ≡ 536) }
    ensures { registers.new ≡ take 4 registers.old ++ (row_mask row.now ++ row_start row.now) }
{
    put_at(registers, 4, &row[16..20]);
    put_at(registers, 8, &row[8..16]);
}

// What a command does to registers and with a record that no rule refuses.
fn act(registers: &mut [u8], command: u8, row: &[u8]) -> Action
    requires { head_rule registers.old command row.now ≡ 0 }
    ensures { (result ≡ action_of command (loaded registers.old)) × (registers.new ≡ registers_by result registers.old command row.now) }
{
    let status = registers[1];
    let action = action_of(command, is_loaded(status));
    registers[0] = command;
    registers[1] = status_by(action, status);
    if action == Action::Loaded {
        take_row(registers, row);
    }
    action
}

// A step: what it did and the registers behind it, or rule 15 or 13 and the registers as they were.
pub fn step(registers: &mut [u8], command: u8, row: &[u8]) -> Result<Action, Refusal>
    ensures answer { says result ≡ step_says registers.old command row.now }
    ensures written { registers.new ≡ step_registers registers.old command row.now }
{
    check_step(registers, command, row)?;
    Ok(act(registers, command, row))
}
