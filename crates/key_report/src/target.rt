ghost use Rattle.std.specs.Prelude.{◌≡◌, ◌≤◌, ◌^◌, ◌*◌, pos, ◌≤ℤ◌, neg_ℤ};
ghost use Rattle.key_report.specs.Targets.{step_of, told_grains};

/// The pitch of a semitone, in grains.
const SEMITONE: i128 = 3_200_000_000_000;

/// A step of the MIDI Tuning Standard, 1/16384 semitone, in grains.
const TUNING_STEP: i128 = 195_312_500;

/// A step of a bend at a sensitivity of one semitone, in grains.
const BEND_STEP: i128 = 390_625_000;

/// What a device is told of a key: in a tuning message the pitch, in steps of 1/16384 semitone above key 0;
/// on a channel with a bend the key that it plays, and the steps of the bend from there.
#[derive(Clone, Copy, Debug, PartialEq, Eq)]
pub enum Target {
    Value(u32),
    Bend { key: u8, steps: i32 },
}

/// The finest step of a device, in grains: of tuning messages, or of bends at a sensitivity of so many
/// semitones.
fn step_of(range: Option<u8>) -> i128
    ensures step { result ≡ pos (step_of range) }
    ensures short { result ≤ℤ pos (2 ^ 40) }
{
    match range {
        None => TUNING_STEP,
        Some(range) => BEND_STEP * i128::from(range),
    }
}

/// What a target tells, in grains above key 0.
pub fn told_grains(range: Option<u8>, target: Target) -> i128
    ensures { result ≡ told_grains range target }
{
    match target {
        Target::Value(value) => i128::from(value) * TUNING_STEP,
        Target::Bend { key, steps } => {
            SEMITONE * i128::from(key) + step_of(range) * i128::from(steps)
        }
    }
}
