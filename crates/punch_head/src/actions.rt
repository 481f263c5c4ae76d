// What a step does.
ghost use Rattle.std.specs.Prelude.{◌≡◌};
ghost use Rattle.punch_head.specs.Steps.{action_of};

// A load taken, or late since one was loaded; a strike done; a clear; nothing more than the command kept.
#[derive(Clone, Copy, PartialEq, Eq)]
pub enum Action {
    Loaded,
    Late,
    Struck,
    Cleared,
    Nothing,
}

// What a command does, by whether a record is loaded: 1 loads, 2 strikes, 3 clears. It is a byte, since any other stays in
// register 0 too.
#[tactic(auto, unfolding(crate::specs::Steps::action_of))]
pub fn action_of(command: u8, loaded: bool) -> Action
    ensures { result ≡ action_of command loaded }
{
    match (command, loaded) {
        (1, false) => Action::Loaded,
        (1, true) => Action::Late,
        (2, true) => Action::Struck,
        (3, _) => Action::Cleared,
        _ => Action::Nothing,
    }
}
