ghost use Rattle.std.specs.Prelude.{◌≡◌, ◌<◌, ◌≤◌, length, IsTrue, false, IfOk, IfSome, IsErrOf};
ghost use Rattle.std.specs.Io.KnownBytes.{Consumes, IsAtEnd};

use mtune_files::LoadFault;
use std::alloc::Global;
use std::io;
use std::io::Read;

/// How many bytes a turn of reading takes at most.
const PIECE: usize = 16_384;

/// Whether more than so many bytes are left to read. They are read, and given up.
fn has_more<R: Read>(reader: &mut R, most: usize) -> io::Result<bool>
    requires { most < 4294967296 }
    ensures more { IfOk result (λ more. IsTrue more
        → IfSome (R.remaining reader.old) (λ left. most < length left)) }
    ensures within { IfOk result (λ more. more ≡ false
        → IfSome (R.remaining reader.old) (λ left. length left ≤ most)) }
{
    let mut piece = [0u8; PIECE];
    let mut taken = 0;
    while taken <= most {
        let count = reader.read(&mut piece)?;
        if count == 0 {
            return Ok(false);
        }
        taken += count;
    }
    Ok(true)
}

/// All that is left to read, where that is at most `limit` bytes. `Failed` comes where a read fails, and
/// `TooLong` where more bytes were left; the reader then stands anywhere. Each turn takes a byte or ends.
pub fn read_whole<R: Read>(alloc: Global, reader: &mut R, limit: u32) -> Result<Vec<u8>, LoadFault>
    // What is loaded is what was left, up to its end.
    ensures taken { IfOk result
        (λ v. Consumes (R.remaining reader.old) (R.remaining reader.new) v.items) }
    ensures ended { IfOk result (λ v. IsAtEnd (R.remaining reader.new)) }

    ensures short { IfOk result (λ v. length v.items ≤ limit) }
    ensures too_long { IsErrOf result LoadFault.TooLong
        → IfSome (R.remaining reader.old) (λ left. limit < length left) }
    ensures memory { IsErrOf result LoadFault.Memory
        → IfSome (R.remaining reader.old) (λ left. length left ≤ limit) }
{
    let limit = limit as usize;
    let mut all = Vec::new(alloc);
    let mut piece = [0u8; PIECE];
    while all.len() <= limit {
        let Ok(count) = reader.read(&mut piece) else {
            return Err(LoadFault::Failed);
        };
        if count == 0 {
            return Ok(all);
        }
        if all.extend_from_slice(&piece[..count]).is_err() {
            let taken = all.len() + count;
            if taken > limit {
                return Err(LoadFault::TooLong);
            }
            return match has_more(reader, limit - taken) {
                Ok(true) => Err(LoadFault::TooLong),
                Ok(false) => Err(LoadFault::Memory),
                Err(_) => Err(LoadFault::Failed),
            };
        }
    }
    Err(LoadFault::TooLong)
}
