// What a host can ask of the board: of a channel, with refusal 2, and of the remainder.
ghost use Rattle.std.specs.Prelude.{◌≡◌, []};
ghost use Rattle.board.specs.Answer.{outcome, queried};
ghost use Rattle.board.specs.Queries.{get_output_state, get_channel_count, does_channel_retrigger, is_dirty, get_timer_accum};

use crate::{Answer, Answered, Board, DirtyMarks};
use refusal::Refusal;
use time::SystemTicks;

impl Board {
    #[tactic(auto, unfolding(crate::specs::Queries::get_output_state))]
    pub fn get_output_state(self, channel: usize) -> Result<Answer, Refusal>
        ensures { queried result self ≡ get_output_state self channel }
    {
        let c = self.channels.get(channel).ok_or(Refusal::ChannelAbove2)?;
        Ok(Answer::OutputState(c.get_output_state()))
    }

    #[tactic(auto, unfolding(crate::specs::Queries::get_channel_count))]
    pub fn get_channel_count(self, channel: usize) -> Result<Answer, Refusal>
        ensures { queried result self ≡ get_channel_count self channel }
    {
        let c = self.channels.get(channel).ok_or(Refusal::ChannelAbove2)?;
        Ok(Answer::Count(c.get_channel_count()))
    }

    #[tactic(auto, unfolding(crate::specs::Queries::does_channel_retrigger))]
    pub fn does_channel_retrigger(self, channel: usize) -> Result<Answer, Refusal>
        ensures { queried result self ≡ does_channel_retrigger self channel }
    {
        let c = self.channels.get(channel).ok_or(Refusal::ChannelAbove2)?;
        Ok(Answer::Retriggers(c.does_channel_retrigger()))
    }

    // Clears the mark, so it hands the board back.
    #[tactic(auto, unfolding(crate::specs::Queries::is_dirty))]
    pub fn is_dirty(self, channel: usize) -> Answered
        ensures { outcome result [] ≡ is_dirty self channel }
    {
        if 2 < channel {
            return self.refuse(Refusal::ChannelAbove2);
        }
        let got = self.channels[channel].is_dirty();
        let mut board = self;
        board.channels[channel] = got.channel;
        Answered {
            answer: Ok(Answer::Dirty(DirtyMarks {
                dirty: got.dirty,
                counting: got.counting,
                ticked: got.ticked,
            })),
            board,
        }
    }

    pub fn get_timer_accum(self) -> SystemTicks
        ensures { result.0 ≡ get_timer_accum self }
    {
        self.remainder
    }
}
