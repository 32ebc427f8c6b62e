// The read-back of three channels, where they stand.
ghost use Rattle.std.specs.Prelude.{◌≡◌};
ghost use Rattle.ports.specs.ReadBacks.{read_back_at, read_back_write};
ghost use Rattle.ports.specs.Settled.{read_on};
ghost use Rattle.board.specs.declared.Board.{Board};

use board::Answer;
use channel::Channel;
use control::ReadBackWord;
use refusal::Refusal;

// Channel n, if it is named.
#[tactic(auto, unfolding(crate::specs::ReadBacks::read_back_at))]
pub fn read_back_at(word: ReadBackWord, n: u8, c: Channel) -> Channel
    ensures { result ≡ read_back_at word n c }
{
    if word.names(n) {
        return latch::read_back(c, word.counts, word.status);
    }
    c
}

// Where the place is refused the records stay. Refusal 7.
pub fn read_back_three(
    word: ReadBackWord,
    channels: &mut [Channel; 3],
    events: &mut [u8],
    place: usize,
) -> Result<Answer, Refusal>
    ensures { (b : Board) → b.channels ≡ channels.old → read_on b result channels.new events.new ≡ read_back_write b word events.old place }
{
    let at = event::place_event(events, place, None)?;
    let [c0, c1, c2] = *channels;
    *channels = [
        read_back_at(word, 0, c0),
        read_back_at(word, 1, c1),
        read_back_at(word, 2, c2),
    ];
    Ok(Answer::Place(at))
}
