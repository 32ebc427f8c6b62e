// The rules of an operation's code, target and number: which one is broken, whatever trace the operation stands in. A code is the byte that the trace has, since
// the first rule is about every byte.
ghost use Rattle.std.specs.Prelude.{◌≡◌};
ghost use Rattle.trace.specs.Rule.{target_broken, zero_broken, size_broken, broken_rule};

// A rule that an operation can break.
#[derive(Clone, Copy, Debug, PartialEq, Eq)]
pub enum Rule {
    Code,
    Target,
    NumberNotZero,
    NumberTooLarge,
}

fn target_broken(code: u8, target: u8) -> bool
    ensures { result ≡ target_broken code target }
{
    6 <= code && target != 0
}

fn zero_broken(code: u8, number: u32) -> bool
    ensures { result ≡ zero_broken code number }
{
    matches!(code, 2 | 5 | 8) && number != 0
}

fn size_broken(code: u8, number: u32) -> bool
    ensures { result ≡ size_broken code number }
{
    match code {
        1 => 255 < number,
        3 => 1 < number,
        _ => false,
    }
}

// The first rule that an operation breaks, if it breaks one.
pub fn broken_rule(code: u8, target: u8, number: u32) -> Option<Rule>
    ensures { result ≡ broken_rule code target number }
{
    if code == 0 || 9 < code {
        return Some(Rule::Code);
    }
    if target_broken(code, target) {
        return Some(Rule::Target);
    }
    if zero_broken(code, number) {
        return Some(Rule::NumberNotZero);
    }
    if size_broken(code, number) {
        return Some(Rule::NumberTooLarge);
    }
    None
}
