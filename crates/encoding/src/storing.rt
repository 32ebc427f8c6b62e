// A channel as the bytes of its record, and bytes put at the front of a lent buffer.
ghost use Rattle.std.specs.Prelude.{◌≡◌, length};
ghost use Rattle.encoding.specs.Stored.{control_bytes, reloading_bytes, load_bytes, counter_bytes, latch_bytes, pins_bytes, status_bytes, channel_bytes};
ghost use Rattle.encoding.specs.Front.{fits, put_front};

use crate::CHANNEL_SIZE;
use crate::codes::Coded;
use channel::{Channel, ControlWord, Counter, Latch, Load, Pins, Reloading, Status};

fn control_bytes(word: ControlWord) -> [u8; 3]
    ensures { result ≡ control_bytes word }
{
    [
        word.mode.number(),
        word.rw_mode.byte(),
        word.bcd_mode.byte(),
    ]
}

fn reloading_bytes(rule: Reloading) -> [u8; 4]
    ensures { result ≡ reloading_bytes rule }
{
    let [mask_low, mask_high] = numbers::two_bytes(rule.load_mask);
    [
        rule.output_on_reload.byte(),
        rule.reload_on_trigger.byte(),
        mask_low,
        mask_high,
    ]
}

fn load_bytes(load: Load) -> [u8; 7]
    ensures { result ≡ load_bytes load }
{
    let [register_low, register_high] = numbers::two_bytes(load.count_register);
    let [reload_low, reload_high] = numbers::two_bytes(load.reload_value);
    [
        register_low,
        register_high,
        reload_low,
        reload_high,
        load.load_state.byte(),
        load.load_type.byte(),
        load.armed.byte(),
    ]
}

fn counter_bytes(counter: Counter) -> [u8; 8]
    ensures { result ≡ counter_bytes counter }
{
    let cycles = numbers::four_bytes(counter.cycles_in_state);
    let element = numbers::two_bytes(counter.counting_element);
    [
        counter.channel_state.byte(),
        cycles[0],
        cycles[1],
        cycles[2],
        cycles[3],
        element[0],
        element[1],
        counter.ticked.byte(),
    ]
}

fn latch_bytes(latch: Latch) -> [u8; 4]
    ensures { result ≡ latch_bytes latch }
{
    let [held_low, held_high] = numbers::two_bytes(latch.output_latch);
    [
        held_low,
        held_high,
        latch.count_is_latched.byte(),
        latch.read_state.byte(),
    ]
}

fn pins_bytes(pins: Pins) -> [u8; 2]
    ensures { result ≡ pins_bytes pins }
{
    [pins.gate.byte(), pins.output.byte()]
}

fn status_bytes(status: Status) -> [u8; 2]
    ensures { result ≡ status_bytes status }
{
    [status.status_latch, status.null_count.byte()]
}

#[tactic(auto, unfolding(crate::specs::Stored::channel_bytes))]
pub fn channel_bytes(c: Channel) -> [u8; CHANNEL_SIZE]
    ensures { result ≡ channel_bytes c }
{
    let w = control_bytes(c.control);
    let r = reloading_bytes(c.reloading);
    let l = load_bytes(c.load);
    let k = counter_bytes(c.counter);
    let t = latch_bytes(c.latch);
    let p = pins_bytes(c.pins);
    let d = c.dirty.byte();
    let s = status_bytes(c.status);
    [
        w[0], w[1], w[2], r[0], r[1], r[2], r[3], l[0], l[1], l[2], l[3], l[4], l[5], l[6], k[0],
        k[1], k[2], k[3], k[4], k[5], k[6], k[7], t[0], t[1], t[2], t[3], p[0], p[1], d, s[0],
        s[1],
    ]
}

// Whether they fit. Where not, the buffer stays as it was.
#[tactic(auto, unfolding(crate::specs::Front::put_front))]
pub fn put_front(bytes: &mut [u8], front: &[u8]) -> bool
    ensures { (result ≡ fits (length front.now) bytes.old) × (bytes.new ≡ put_front front.now bytes.old) }
{
    if bytes.len() < front.len() {
        return false;
    }
    bytes[..front.len()].copy_from_slice(front);
    true
}
