// The status byte of the moment.
ghost use Rattle.std.specs.Prelude.{◌≡◌};
ghost use Rattle.latch.specs.Status.{access_number, status_byte};

use channel::{Channel, RwMode};
use numbers::flag_byte;

// As in a control byte.
fn access_number(rw_mode: RwMode) -> u8
    ensures { result ≡ access_number rw_mode }
{
    match rw_mode {
        RwMode::Lsb => 1,
        RwMode::Msb => 2,
        RwMode::LsbMsb => 3,
    }
}

// The status of this moment: output, null count, access, mode as stored, radix.
#[tactic(auto, unfolding(crate::specs::Status::status_byte))]
pub fn status_byte(c: Channel) -> u8
    ensures { result ≡ status_byte c }
{
    flag_byte(c.pins.output) * 128
        + flag_byte(c.status.null_count) * 64
        + access_number(c.control.rw_mode) * 16
        + c.control.mode.number() * 2
        + flag_byte(c.control.bcd_mode)
}
