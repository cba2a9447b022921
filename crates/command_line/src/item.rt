ghost use Rattle.std.specs.Prelude.{◌≤◌};

/// An item of a list of channels, n or n-m, as far as it is read: 0 stands for a number of which no
/// digit came.
#[derive(Clone, Copy, Debug)]
pub(crate) struct Item {
    pub first: u8,
    pub is_range: bool,
    pub last: u8,
    pub ghost first_low: { first ≤ 16 },
    pub ghost last_low: { last ≤ 16 },
}
