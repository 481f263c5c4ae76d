// A channel at rest.
ghost use Rattle.std.specs.Prelude.{◌≡◌};
ghost use Rattle.channel.specs.Rest.{at_rest};

use crate::state::Channel;

#[tactic(auto, unfolding(crate::specs::Rest::at_rest))]
pub fn is_at_rest(c: Channel) -> bool
    ensures { result ≡ at_rest c }
{
    (c.command == 0) & (c.info == 0) & (c.retrig_counter == 0) & c.pending_delay.is_none()
}
