// The state between two calls. No jump and no global volume waits in it: neither outlives a row.
use channel::state::{Channel, Switches};
use row_path::machine::Path;

#[derive(Clone, Copy)]
pub struct State {
    pub path: Path,
    pub channels: [Channel; 32],
    pub global_volume: u8,
    pub switches: Switches,
}

// What Section gives: the rows written, whether the tune has ended, and the state behind them.
#[derive(Clone, Copy)]
pub struct Progress {
    pub rows: u32,
    pub ended: bool,
    pub state: State,
}
