ghost use Rattle.std.specs.Prelude.{◌≡◌, ◌≤◌, ◌^◌, option_map, IfSome};
ghost use Rattle.command_line.specs.Channels.{no_item, with_digit, with_byte, with_range, with_item, channels_from, channels_of};
ghost use Rattle.command_line.specs.Items.{item_of};

use crate::item::Item;

/// A number from 1 to 16 with a digit behind it.
fn with_digit(number: u8, byte: u8) -> Option<u8>
    requires { number ≤ 16 }
    ensures number { result ≡ with_digit number byte }
    ensures low { IfSome result (λ n. n ≤ 16) }
{
    if !byte.is_ascii_digit() {
        return None;
    }
    let more = 10 * number + (byte - b'0');
    if 1 <= more && more <= 16 {
        Some(more)
    } else {
        None
    }
}

/// A power of two, at most the sixteenth.
fn power(exponent: u8) -> u32
    requires { exponent ≤ 16 }
    ensures power { result ≡ 2 ^ exponent }
    ensures bound { result ≤ 65536 }
{
    1u32 << exponent
}

impl Item {
    /// Before its first byte.
    fn new() -> Item
        ensures { item_of result ≡ no_item }
    {
        Item {
            first: 0,
            is_range: false,
            last: 0,
        }
    }

    /// With a byte more: a hyphen behind the first number, or a digit.
    fn with_byte(self, byte: u8) -> Option<Item>
        ensures { option_map item_of result ≡ with_byte (item_of self) byte }
    {
        if byte == b'-' {
            if self.is_range || self.first == 0 {
                return None;
            }
            return Some(Item {
                first: self.first,
                is_range: true,
                last: 0,
            });
        }
        if self.is_range {
            Some(Item {
                first: self.first,
                is_range: true,
                last: with_digit(self.last, byte)?,
            })
        } else {
            Some(Item {
                first: with_digit(self.first, byte)?,
                is_range: false,
                last: 0,
            })
        }
    }

    /// Its channels beside those of a mask, where it is whole.
    fn put(self, mask: u16) -> Option<u16>
        ensures { result ≡ with_item mask (item_of self) }
    {
        let last = if self.is_range { self.last } else { self.first };
        if self.first == 0 || last < self.first {
            return None;
        }
        let range = power(last) - power(self.first - 1);
        Some(mask | range as u16)
    }
}

/// The mask of a list of channels. None exactly where the text isn't one.
#[tactic(auto, unfolding(crate::specs::Channels::channels_from))]
pub(crate) fn channels(text: &str) -> Option<u16>
    ensures { result ≡ channels_of text.now }
{
    let mut mask = 0;
    let mut item = Item::new();
    let mut rest = text.as_bytes();
    while let [byte, more @ ..] = rest {
        if *byte == b',' {
            mask = item.put(mask)?;
            item = Item::new();
        } else {
            item = item.with_byte(*byte)?;
        }
        rest = more;
    }
    item.put(mask)
}
