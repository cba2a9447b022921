ghost use Rattle.std.specs.Prelude.{◌≡◌, ◌+◌, ◌*◌, ◌^◌, ◌<◌, ◌≤◌};

// A number by its leading binary digits: the mantissa is the number times 2 ^ shift.
#[derive(Clone, Copy, Debug)]
pub struct Scaled {
    pub mantissa: u64,
    pub shift: u32,
}

impl Scaled {
    pub fn of(number: u64) -> Scaled
        requires { 0 < number }
        ensures value { result.mantissa ≡ 2 ^ result.shift * number }
        ensures top { 2 ^ 63 ≤ result.mantissa }
        ensures shift { result.shift < 64 }
    {
        let shift = number.leading_zeros();
        Scaled {
            mantissa: number << shift,
            shift,
        }
    }
}

// The quotient of two mantissas in units of 2 ^ -63, cut down, after the first was doubled where it
// is the lesser one.
#[derive(Clone, Copy, Debug)]
pub struct Start {
    pub mantissa: u64,
    pub doublings: u32,
}

impl Start {
    pub fn of(above: u64, below: u64) -> Start
        requires above_top { 2 ^ 63 ≤ above }
        requires below_top { 2 ^ 63 ≤ below }
        ensures low { result.mantissa * below ≤ 2 ^ 63 * (2 ^ result.doublings * above) }
        ensures high { 2 ^ 63 * (2 ^ result.doublings * above) < (result.mantissa + 1) * below }
        ensures top { 2 ^ 63 ≤ result.mantissa }
        ensures doublings { result.doublings ≤ 1 }
    {
        if above < below {
            Start {
                mantissa: quotient((above as u128) << 64, below),
                doublings: 1,
            }
        } else {
            Start {
                mantissa: quotient((above as u128) << 63, below),
                doublings: 0,
            }
        }
    }
}

fn quotient(above: u128, below: u64) -> u64
    requires low { 2 ^ 63 * below ≤ above }
    requires high { above < 2 ^ 64 * below }
    ensures low { result * below ≤ above }
    ensures high { above < (result + 1) * below }
    ensures top { 2 ^ 63 ≤ result }
{
    (above / below as u128) as u64
}
