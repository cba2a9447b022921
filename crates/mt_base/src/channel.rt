ghost use Rattle.std.specs.Prelude.{◌≡◌, ◌<◌, ◌≤◌, IfSome, IfNone};

use std::marker::Model;

/// A MIDI channel by its number less one, 0 to 15. Contracts see the number.
#[derive(Clone, Copy, Debug, PartialEq, Eq, PartialOrd, Ord, Hash)]
pub struct Channel {
    number: u8,
}

impl Model for Channel {
    ghost use Rattle.std.specs.Prelude.{◌≤◌, ℕ};

    ghost Value = { ℕ };

    ghost view = { λ c. c.number };

    ghost invariant = { λ c. c.number ≤ 15 };

    ghost inverse = { λ n. record { number = n } };
}

impl Default for Channel {
    /// The first channel.
    fn default() -> Channel
        ensures { result ≡ 0 }
    {
        Channel { number: 0 }
    }
}

impl Channel {
    /// The channel of this number, where there is one.
    pub fn new(number: u8) -> Option<Channel>
        ensures some { IfSome result (λ c. c ≡ number) }
        ensures none { IfNone result (15 < number) }
    {
        if number > 15 {
            None
        } else {
            Some(Channel { number })
        }
    }

    /// The channel of this number, 0 to 15.
    pub fn at(number: u8) -> Channel
        requires { number < 16 }
        ensures { result ≡ number }
    {
        Channel { number }
    }

    /// Its number, 0 to 15.
    pub fn number(self) -> u8
        ensures value { result ≡ self }
        ensures bound { result ≤ 15 }
    {
        self.number
    }
}
