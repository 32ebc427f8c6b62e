// What a call returns: 0, or the number of what kept it from doing anything. docs/ENCODING.md, "Exported functions", has the table.
ghost use Rattle.std.specs.Prelude.{◌≡◌};
ghost use Rattle.pit.specs.Status.{status_number, load_status, call_status};

use encoding::loading::LoadError;
use in_bytes::working::CallError;

// Why a call does nothing: no lent byte changes.
#[derive(Clone, Copy, Debug, PartialEq, Eq)]
pub enum Status {
    // Fewer bytes than a record or a board has.
    ShortRecord,
    UnreadableRecord,
    // No operation of the table, or no model.
    UnknownOperation,
    // Fewer bytes lent than the answer has.
    ShortAnswer,
    // Fewer bytes lent than what a call on a trace writes.
    ShortOut,
    // By a board, with the refusal's number.
    Refused(u8),
}

impl From<Status> for u32 {
    ghost from_gives = { λ status number. number ≡ status_number status };

    fn from(status: Status) -> u32 {
        match status {
            Status::ShortRecord => 101,
            Status::UnreadableRecord => 102,
            Status::UnknownOperation => 103,
            Status::ShortAnswer => 104,
            Status::ShortOut => 105,
            Status::Refused(number) => u32::from(number),
        }
    }
}

impl From<LoadError> for Status {
    ghost from_gives = { λ error status. status ≡ load_status error };

    fn from(error: LoadError) -> Status {
        match error {
            LoadError::Short => Status::ShortRecord,
            LoadError::Unreadable => Status::UnreadableRecord,
        }
    }
}

impl From<CallError> for Status {
    ghost from_gives = { λ error status. status ≡ call_status error };

    fn from(error: CallError) -> Status {
        match error {
            CallError::Short => Status::ShortRecord,
            CallError::Unreadable => Status::UnreadableRecord,
            CallError::Unknown => Status::UnknownOperation,
            CallError::NoRoom => Status::ShortAnswer,
            CallError::Refused(number) => Status::Refused(number),
        }
    }
}
