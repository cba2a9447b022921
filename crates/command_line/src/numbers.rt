ghost use Rattle.std.specs.Prelude.{◌≡◌, ◌≤◌, ◌+◌, ◌*◌, ◌-◌, min};
ghost use Rattle.command_line.specs.Words.{number_from, number_of};

/// A number with a digit behind it, at most so much.
fn with_digit(number: u32, byte: u8, high: u32) -> u32
    requires number { number ≤ 268435455 }
    requires high { high ≤ 268435455 }
    ensures { result ≡ min high (10 * number + (byte - 48)) }
{
    high.min(10 * number + byte.saturating_sub(b'0') as u32)
}

/// The number of some digits, which `clap` takes only from low to high.
#[tactic(auto, unfolding(crate::specs::Words::number_from))]
pub(crate) fn number(text: &str, low: u32, high: u32) -> u32
    requires order { low ≤ high }
    requires high { high ≤ 268435455 }
    ensures number { result ≡ number_of low high text.now }
    ensures low { low ≤ result }
    ensures high { result ≤ high }
{
    let mut number = 0;
    let mut rest = text.as_bytes();
    while let [byte, more @ ..] = rest {
        number = with_digit(number, *byte, high);
        rest = more;
    }
    number.max(low)
}
