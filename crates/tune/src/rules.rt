// Why a call refuses. Each rule has its number in the list of refusals (docs/CLAIMS.md).
ghost use Rattle.std.specs.Prelude.{◌≡◌};
ghost use Rattle.laws.specs.Refusals.{refuse};
ghost use Rattle.tune.specs.Rules.{number_of, verdict};

#[derive(Clone, Copy, Debug, PartialEq, Eq)]
pub enum Refusal {
    // the file is shorter than its header
    ShortFile = 1,
    // bytes 44 to 47 are not SCRM
    NoMark = 2,
    // too few or too many orders, instruments or patterns
    Counts = 3,
    // a list behind the header runs past the file
    Lists = 4,
    // the header's speed, tempo or global volume
    HeaderLevels = 5,
    // a lent table is not as long as the counts need
    TableLengths = 6,
    // an instrument runs past the file
    InstrumentPast = 7,
    // a packed pattern runs past the file
    PatternPast = 8,
    // a lent table has a size that it cannot have
    Tables = 9,
    // an opening value is out of range
    OpeningValues = 10,
    // the state is none that a section can go on from
    State = 11,
    // too many rows, or too short an output
    Room = 12,
    // a record is not 536 bytes, or the output too short
    Record = 13,
    // the tune is not closed
    NotClosed = 14,
    // the punch head's registers
    Registers = 15,
    // the sizes of a sheet in columns
    ColumnSizes = 16,
    // a channel's volume or pan cannot be real
    ChannelLevels = 17,
}

impl Refusal {
    // The rule's number in the list.
    pub fn number(self) -> u8
        ensures { result ≡ number_of self }
    {
        self as u8
    }
}

// The refusal, where its rule is broken.
pub fn refuse_if(broken: bool, refusal: Refusal) -> Result<(), Refusal>
    ensures { verdict result ≡ refuse (number_of refusal) broken }
{
    if broken { Err(refusal) } else { Ok(()) }
}
