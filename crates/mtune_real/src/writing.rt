ghost use Rattle.std.specs.Prelude.{◌≡◌, IsTrue};
ghost use Rattle.std.specs.Io.KnownBytes.{Appends};
ghost use Rattle.mtune_real.specs.Fronts.{WritesFront};

use std::fs::{OpenFile, Permissions};
use std::io::Write;

/// Writes all of the bytes. False where a piece isn't taken: then a front of them was written.
pub fn write_all<W: Write>(writer: &mut W, content: &[u8]) -> bool
    ensures whole { IsTrue result
        → Appends (W.contents writer.old) (W.contents writer.new) content.now }
    ensures front { WritesFront (W.contents writer.old) (W.contents writer.new) content.now }
{
    let mut rest = content;
    while !rest.is_empty() {
        match writer.write(rest) {
            Ok(0) | Err(_) => return false,
            Ok(count) => rest = &rest[count..],
        }
    }
    true
}

/// Writes a text, and hands it on at once.
pub fn say_all<W: Write>(out: &mut W, text: &[u8]) -> bool
    ensures whole { IsTrue result
        → Appends (W.contents out.old) (W.contents out.new) text.now }
    ensures front { WritesFront (W.contents out.old) (W.contents out.new) text.now }
{
    write_all(out, text) && out.flush().is_ok()
}

/// Writes a new file whole, and waits until it is kept.
pub fn write_new<F: Write + OpenFile>(
    file: &mut F,
    permissions: Option<Permissions>,
    content: &[u8],
) -> bool
    ensures whole { IsTrue result
        → Appends (F.contents file.old) (F.contents file.new) content.now }
    ensures front { WritesFront (F.contents file.old) (F.contents file.new) content.now }
{
    if let Some(permissions) = permissions {
        // A file system without permissions keeps its own.
        let _ = file.set_permissions(permissions);
    }
    write_all(file, content) && file.sync_all().is_ok()
}
