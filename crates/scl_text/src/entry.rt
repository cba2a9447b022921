/// An entry of a scale: a ratio of two numbers, or billionths of a cent.
#[derive(Clone, Copy, Debug, PartialEq, Eq)]
pub enum Entry {
    Ratio { num: u64, den: u64 },
    Cents { nanocents: i64 },
}
