// The four ports by their numbers.
ghost use Rattle.std.specs.Prelude.{◌≡◌};
ghost use Rattle.ports.specs.Port.{port_of};

#[derive(Clone, Copy, Debug, PartialEq, Eq)]
pub enum Port {
    // A channel's data port.
    Data(usize),
    Command,
}

// The IBM PC's numbers: 0x40, 0x41, 0x42, and 0x43 for commands. No other port is the timer's.
#[tactic(auto, unfolding(crate::specs::Port::port_of))]
pub fn port_of(port: u16) -> Option<Port>
    ensures { result ≡ port_of port }
{
    match port {
        0x40..=0x42 => Some(Port::Data(usize::from(port - 0x40))),
        0x43 => Some(Port::Command),
        _ => None,
    }
}
