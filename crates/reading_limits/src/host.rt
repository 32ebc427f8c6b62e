// What a host calls, on boards of its own. Each call gives the board after it; the one before stays, to be gone on from in another way.
use board::{Answer, Answered, Board};
use channel::PitType;
use time::SystemTicks;

// Channel 0's data port.
pub(crate) const DATA: u16 = 0x40;

pub(crate) const COMMAND: u16 = 0x43;

// Control bytes for channel 0. The mode sets are of mode 0.
pub(crate) const LATCH: u8 = 0x00;

pub(crate) const LOW_BYTE: u8 = 0x10;

pub(crate) const BOTH_BYTES: u8 = 0x30;

pub(crate) const BOTH_BYTES_BCD: u8 = 0x31;

// The read-backs of channel 0 on the 8254: its status, and its status and count.
pub(crate) const READ_STATUS: u8 = 0xE2;

pub(crate) const READ_BOTH: u8 = 0xC2;

#[derive(Clone, Copy)]
pub(crate) struct Host(pub(crate) Board);

pub(crate) fn fresh() -> Host {
    Host(Board::new(PitType::Model8253, 12).board)
}

pub(crate) fn fresh_8254() -> Host {
    Host(Board::new(PitType::Model8254, 12).board)
}

impl Host {
    // Two event bytes are lent, so a place of 3 is refused and a place of 0 is not.
    pub(crate) fn write_at(self, port: u16, byte: u8, place: usize) -> Host {
        Host(calls::write_port(self.0, port, byte, &mut [0u8; 2], place).board)
    }

    pub(crate) fn write(self, port: u16, byte: u8) -> Host {
        self.write_at(port, byte, 0)
    }

    // A word to the data port.
    pub(crate) fn write_word(self, low: u8, high: u8) -> Host {
        self.write(DATA, low).write(DATA, high)
    }

    pub(crate) fn load_cycle(self) -> Host {
        Host(calls::load_cycle(self.0, 0).board)
    }

    pub(crate) fn counts(self, number: u32) -> Host {
        Host(calls::counts(self.0, 0, number).board)
    }

    pub(crate) fn reset(self) -> Host {
        Host(calls::reset(self.0).board)
    }

    // A tick that is owed: twelve system ticks have passed.
    pub(crate) fn owing(self) -> Host {
        Host(calls::run(self.0, SystemTicks(12)).board)
    }

    // A tick made.
    pub(crate) fn tick(self) -> Host {
        Host(calls::work_off(self.owing().0, 1, &mut [0u8; 6], 0).board)
    }

    pub(crate) fn latch(self) -> Host {
        self.write(COMMAND, LATCH)
    }

    pub(crate) fn read(self, port: u16) -> Answered {
        calls::read_port(self.0, port)
    }

    pub(crate) fn after_read(self) -> Host {
        Host(self.read(DATA).board)
    }

    fn byte(self) -> u8 {
        let Ok(Answer::Byte(read)) = self.read(DATA).answer else {
            return 0;
        };
        read.byte
    }

    // Two bytes read, in their order.
    pub(crate) fn two_bytes(self) -> [u8; 2] {
        [self.byte(), self.after_read().byte()]
    }
}
