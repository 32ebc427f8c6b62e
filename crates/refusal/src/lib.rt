// Why a call or a trace is refused: document 01's table of refusal numbers, and those that requests L1, L7 and L8 of document 02 add. Two of the table's are gone:
// request L6 lifts the limit that 6 stood for, and L8 splits 14.
#![tactic(auto)]

ghost use Rattle.std.specs.Prelude.{◌≡◌};
ghost use Rattle.refusal.specs.Refusal.{refusal_number};

#[derive(Clone, Copy, Debug, PartialEq, Eq)]
pub enum Refusal {
    PortUnknown,
    ChannelAbove2,
    DivisorZero,
    TicksBelowWarp,
    RemainderTooLarge,
    PlacePastEnd,
    NoRoom,
    TraceEnds,
    SettingsCount,
    TooManyOperations,
    UnknownCode,
    BytesAfter,
    TooManyTicks,
    TicksOwed,
    CheckpointCount,
    CheckpointWrong,
    TargetNotZero,
    NumberNotZero,
    TooLarge,
}

impl Refusal {
    pub fn number(self) -> u8
        ensures { result ≡ refusal_number self }
    {
        match self {
            Refusal::PortUnknown => 1,
            Refusal::ChannelAbove2 => 2,
            Refusal::DivisorZero => 3,
            Refusal::TicksBelowWarp => 4,
            Refusal::RemainderTooLarge => 5,
            // 6 is not given again.
            Refusal::PlacePastEnd => 7,
            Refusal::NoRoom => 8,
            Refusal::TraceEnds => 9,
            Refusal::SettingsCount => 10,
            Refusal::TooManyOperations => 11,
            Refusal::UnknownCode => 12,
            Refusal::BytesAfter => 13,
            // 14 is not given again.
            Refusal::TooManyTicks => 15,
            Refusal::TicksOwed => 16,
            Refusal::CheckpointCount => 17,
            Refusal::CheckpointWrong => 18,
            Refusal::TargetNotZero => 19,
            Refusal::NumberNotZero => 20,
            Refusal::TooLarge => 21,
        }
    }
}
