/// What a device is to be told of a key: nothing where the key has no pitch or the device has none near
/// it; for a tuning message the pitch in steps of 1/16384 semitone, at most 2,097,150; for a bend the
/// nearest key, at most 127, and the steps of the bend from there.
#[derive(Clone, Copy, Debug, PartialEq, Eq)]
pub enum Aim {
    Unmapped,
    OutOfDevice,
    Mts { value: u32 },
    Bend { key: u8, steps: i32 },
}
