/// Why words give no command.
#[derive(Clone, Copy, Debug, PartialEq, Eq)]
pub enum WordsFault {
    /// 1: they aren't taken; 2: a text isn't one of those listed; 3: an option doesn't go with the
    /// rest.
    Usage { kind: u8 },
    Memory,
}
