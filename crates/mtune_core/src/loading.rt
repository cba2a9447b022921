ghost use Rattle.std.specs.Prelude.{◌≡◌, ◌≤◌, length, IfOk, IfErr, OnOk};
ghost use Rattle.mtune_files.specs.Outside.{IsHeld, after_load};
ghost use Rattle.mtune_core.specs.Contents.{LoadCause};

use crate::outcome::Fault;
use mtune_files::{Files, LoadFault, Which};
use std::alloc::Global;

/// The most bytes that a scale or a mapping may have.
pub const TEXT_LIMIT: u32 = 262_144;

/// The most bytes that an input may have.
pub const INPUT_LIMIT: u32 = 4_194_304;

/// The content at a name, of at most `limit` bytes.
pub fn load<F: Files>(
    alloc: Global,
    files: &mut F,
    which: Which,
    name: &str,
    limit: u32,
) -> Result<Vec<u8>, Fault>
    ensures content { IfOk result (λ v. IsHeld (F.outside files.old) name.now v.items) }
    ensures short { IfOk result (λ v. length v.items ≤ limit) }
    ensures loaded { OnOk result (F.outside files.new ≡ after_load which (F.outside files.old)) }
    ensures cause { IfErr result
        (λ e. LoadCause which name.now limit (F.outside files.old) (F.outside files.new) e) }
{
    match files.load(alloc, which, name, limit) {
        Ok(content) => Ok(content),
        Err(LoadFault::Failed) => Err(Fault::Load { which }),
        Err(LoadFault::TooLong) => Err(Fault::TooLong { which }),
        Err(LoadFault::Memory) => Err(Fault::Memory),
    }
}
