// The status byte: bit 0 loaded, bit 1 late, bit 7 interrupt.
ghost use Rattle.std.specs.Prelude.{◌≡◌, not, eqb};
ghost use Rattle.punch_head.specs.Registers.{loaded_bit, is_on, other_bits};
ghost use Rattle.punch_head.specs.Steps.{status_by};

use crate::actions::Action;

pub fn is_loaded(status: u8) -> bool
    ensures { result ≡ is_on status loaded_bit }
{
    status & 1 == 1
}

// Whether a bit other than the three is set.
pub fn has_other_bits(status: u8) -> bool
    ensures { result ≡ not (eqb (other_bits status) 0) }
{
    status & 0x7C != 0
}

// The status behind an action.
pub fn status_by(action: Action, status: u8) -> u8
    ensures { result ≡ status_by action status }
{
    match action {
        Action::Loaded => status | 1,
        Action::Late => status | 2,
        Action::Struck => (status & 0xFE) | 0x80,
        Action::Cleared => status & 0x7D,
        Action::Nothing => status,
    }
}
