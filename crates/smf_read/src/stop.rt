ghost use Rattle.std.specs.Prelude.{◌≡◌, length};

use midi_model::{SmfKind, Stop};

/// A fault of a kind, where these bytes are left.
#[inline]
pub fn stop(left: &[u8], kind: SmfKind) -> Stop
    ensures { result ≡ record { left = length left.now; kind = kind } }
{
    Stop {
        left: left.len(),
        kind,
    }
}
