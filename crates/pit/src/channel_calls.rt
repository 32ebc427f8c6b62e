// A channel's record in bytes, and one operation at a time on it.
ghost use Rattle.std.specs.Prelude.{◌≡◌, length};
ghost use Rattle.encoding.specs.Front.{put_front};
ghost use Rattle.pit.specs.Channel.{outcome_of, channel_answer_bytes, record_bytes, Settles, fresh_status, fresh_after};

use crate::status::Status;
use channel::Channel;
use channel_operation::making::Made;

// A level, then three numbers of two bytes.
pub const CHANNEL_ANSWER_SIZE: usize = 1 + 2 + 2 + 2;

// What an operation comes to, before anything is stored. Room is the number of bytes lent for the answer.
#[tactic(auto, unfolding(crate::specs::Channel::outcome_of))]
fn outcome_of(bytes: &[u8], room: usize, code: u8, number: u8, setting: u8) -> Result<Made, Status>
    ensures { result ≡ outcome_of bytes.now room code number setting }
{
    let channel = encoding::load_channel(bytes)?;
    let operation = channel_operation::operation_of(code, number, setting).ok_or(
        Status::UnknownOperation,
    )?;
    if room < CHANNEL_ANSWER_SIZE {
        return Err(Status::ShortAnswer);
    }
    Ok(channel_operation::operate(channel, operation))
}

fn channel_answer_bytes(made: Made) -> [u8; CHANNEL_ANSWER_SIZE]
    ensures { result ≡ channel_answer_bytes made }
{
    let level = u8::from(made.channel.get_output_state());
    let first = numbers::two_bytes(made.first);
    let second = numbers::two_bytes(made.second);
    let third = numbers::two_bytes(made.third);
    [
        level, first[0], first[1], second[0], second[1], third[0], third[1],
    ]
}

fn write_back(bytes: &mut [u8], answer: &mut [u8], made: Made)
    ensures { (bytes.new ≡ put_front (record_bytes made) bytes.old) × (answer.new ≡ put_front (channel_answer_bytes made) answer.old) }
{
    encoding::put_front(bytes, &encoding::channel_bytes(made.channel));
    encoding::put_front(answer, &channel_answer_bytes(made));
}

pub fn pit_channel_operation(
    bytes: &mut [u8],
    answer: &mut [u8],
    code: u8,
    number: u8,
    setting: u8,
) -> u32
    ensures { Settles (outcome_of bytes.old (length answer.old) code number setting) bytes.old answer.old result bytes.new answer.new }
{
    match outcome_of(bytes, answer.len(), code, number, setting) {
        Ok(made) => {
            write_back(bytes, answer, made);
            0
        }
        Err(status) => u32::from(status),
    }
}

pub fn pit_channel_fresh(bytes: &mut [u8]) -> u32
    ensures { (result ≡ fresh_status bytes.old) × (bytes.new ≡ fresh_after bytes.old) }
{
    if encoding::put_front(bytes, &encoding::channel_bytes(Channel::fresh())) {
        return 0;
    }
    u32::from(Status::ShortRecord)
}
