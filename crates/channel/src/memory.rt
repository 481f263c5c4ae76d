// A row begins on a channel.
ghost use Rattle.std.specs.Prelude.{◌≡◌, ◌&&◌, not, eqb};
ghost use Rattle.channel.specs.Memory.{resumes, has_memory, slot_of, remembered, recalled, armed};

use crate::state::Channel;
use tune::cells::Cell;

#[tactic(auto, unfolding(crate::specs::Memory::resumes))]
fn is_resume_command(command: u8) -> bool
    ensures { result ≡ resumes command }
{
    matches!(command, 5..=8 | 10..=12 | 21)
}

#[tactic(auto, unfolding(crate::specs::Memory::has_memory))]
fn uses_memory(command: u8) -> bool
    ensures { result ≡ has_memory command }
{
    matches!(command, 4..=18 | 21 | 23..=26)
}

#[tactic(auto, unfolding(crate::specs::Memory::slot_of))]
pub fn memory_slot(command: u8) -> usize
    ensures { result ≡ slot_of command }
{
    if command == 21 { 8 } else { command as usize }
}

#[tactic(auto, using(crate::proofs::Slots::slot_below), unfolding(crate::specs::Memory::remembered))]
fn remember(memory: [u8; 32], command: u8, s_info: u8) -> u8
    ensures { result ≡ remembered memory command s_info }
{
    if command == 19 {
        return s_info;
    }
    if uses_memory(command) {
        return memory[memory_slot(command)];
    }
    0
}

// The info in force: info 0 recalls.
#[tactic(auto, unfolding(crate::specs::Memory::recalled))]
fn recall(memory: [u8; 32], command: u8, info: u8, s_info: u8) -> u8
    ensures { result ≡ recalled memory command info s_info }
{
    if info == 0 {
        return remember(memory, command, s_info);
    }
    info
}

// Whether a cell's info is stored.
pub fn stores(command: u8, info: u8) -> bool
    ensures { result ≡ has_memory command && not (eqb info 0) }
{
    uses_memory(command) & (info != 0)
}

// A channel stays frozen unless the command resumes it.
fn stays_frozen(frozen: bool, command: u8) -> bool
    ensures { result ≡ frozen && not (resumes command) }
{
    if frozen {
        return !is_resume_command(command);
    }
    false
}

// The channel with the row's command, its info recalled. What the row stores is set last, by `enter_channel`.
#[tactic(auto, unfolding(crate::specs::Memory::begun, crate::specs::Memory::armed, crate::specs::Set::with_row, crate::specs::Set::with_memory))]
pub fn arm(c: Channel, cell: Cell, s_info: u8) -> Channel
    ensures { result ≡ armed c cell s_info }
{
    let memory = c.effect_memory;
    let info = recall(memory, cell.command, cell.info, s_info);
    let retrig_counter = if cell.command == 17 {
        c.retrig_counter
    } else {
        0
    };
    let frozen = stays_frozen(c.frozen, cell.command);
    Channel {
        command: cell.command,
        info,
        pending_delay: None,
        retrig_counter,
        frozen,
        ..c
    }
}
