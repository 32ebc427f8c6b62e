// A byte written to a channel's data port.
ghost use Rattle.std.specs.Prelude.{◌≡◌};
ghost use Rattle.load.specs.Write.{stops_on_low_byte, put_register, stopped, write_low, begins_word, word_in, state_in, write_byte};

use crate::finalize::finalize_load;
use channel::{Channel, ChannelMode, ChannelState, Load, LoadState, RwMode};

// The mode that the first byte of a word stops.
fn stops_on_low_byte(mode: ChannelMode) -> bool
    ensures { result ≡ stops_on_low_byte mode }
{
    mode == ChannelMode::InterruptOnTerminalCount
}

// The count register with a value, and how far the load has then come.
#[tactic(auto, unfolding(crate::specs::Write::put_register))]
fn put_register(c: Channel, value: u16, load_state: LoadState) -> Channel
    ensures { result ≡ put_register c value load_state }
{
    Channel {
        load: Load {
            count_register: value,
            load_state,
            ..c.load
        },
        ..c
    }
}

fn stop(c: Channel) -> Channel
    ensures { result ≡ stopped c }
{
    c.change_output_state(false)
        .change_channel_state(ChannelState::WaitingForReload)
}

// The first byte of a word. Mode 0 stops at it.
fn write_low(c: Channel, byte: u8) -> Channel
    ensures { result ≡ write_low c byte }
{
    let next = put_register(c, u16::from(byte), LoadState::WaitingForMsb);
    if stops_on_low_byte(next.control.mode) {
        stop(next)
    } else {
        next
    }
}

// Whether the byte is the first of two.
fn begins_word(rw_mode: RwMode, load_state: LoadState) -> bool
    ensures { result ≡ begins_word rw_mode load_state }
{
    rw_mode == RwMode::LsbMsb && load_state == LoadState::WaitingForLsb
}

// The count register that a byte completes.
fn word_in(rw_mode: RwMode, register: u16, byte: u8) -> u16
    ensures { result ≡ word_in rw_mode register byte }
{
    let value = u16::from(byte);
    match rw_mode {
        RwMode::Lsb => value,
        RwMode::Msb => value * 256,
        RwMode::LsbMsb => register % 256 + value * 256,
    }
}

// The byte that is waited for after a complete load.
fn state_in(rw_mode: RwMode, load_state: LoadState) -> LoadState
    ensures { result ≡ state_in rw_mode load_state }
{
    match rw_mode {
        RwMode::Lsb | RwMode::Msb => load_state,
        RwMode::LsbMsb => LoadState::WaitingForLsb,
    }
}

// One call of finalize_load, so that the whole is small enough to be inlined: docs/PERFORMANCE.md.
#[tactic(auto, unfolding(crate::specs::Write::write_byte))]
pub fn write_byte(c: Channel, byte: u8, defer_reload: bool) -> Channel
    ensures { result ≡ write_byte c byte defer_reload }
{
    let rw_mode = c.control.rw_mode;
    if begins_word(rw_mode, c.load.load_state) {
        return write_low(c, byte);
    }
    let word = word_in(rw_mode, c.load.count_register, byte);
    let next_state = state_in(rw_mode, c.load.load_state);
    finalize_load(put_register(c, word, next_state), defer_reload)
}
