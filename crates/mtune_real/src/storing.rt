use crate::writing::{write_all, write_new};
use std::fs;
use std::fs::{File, OpenOptions, Permissions};
use std::io::{self, ErrorKind};
use std::path::{Path, PathBuf};

/// How many names are tried for a new file.
const NAMES: u32 = 100;

/// How many links are followed, one after the other: as many as Linux follows.
const LINKS: u32 = 40;

/// Makes a new file in the target's folder, under a name that nothing has.
fn create_beside(rt: &HostRuntime, target: Path<'_>) -> io::Result<(File, PathBuf)> {
    for number in 0..NAMES {
        let name = format!(in rt.alloc(); ".mtune-{number}.new")?;
        let beside = target.with_file_name(rt.alloc(), name.as_str())?;
        match File::create_new(rt, beside.as_path()) {
            Ok(file) => return Ok((file, beside)),
            Err(error) if error.kind() == ErrorKind::AlreadyExists => {}
            Err(error) => return Err(error),
        }
    }
    Err(io::Error::from(ErrorKind::AlreadyExists))
}

/// Writes a new file beside the target and gives it the target's name, so that the target is whole
/// at each moment. Where anything fails the new file is removed.
fn replace(
    rt: &HostRuntime,
    target: Path<'_>,
    permissions: Option<Permissions>,
    content: &[u8],
) -> io::Result<bool> {
    let (mut file, beside) = create_beside(rt, target)?;
    let stored = write_new(&mut file, permissions, content)
        && fs::rename(rt, beside.as_path(), target).is_ok();
    if !stored {
        let _ = fs::remove_file(rt, beside.as_path());
    }
    Ok(stored)
}

/// Writes to what is there and is no regular file, as a device or a pipe.
fn write_in_place(rt: &HostRuntime, name: &str, content: &[u8]) -> io::Result<bool> {
    let mut file = OpenOptions::new().write(true).open(rt, name)?;
    Ok(write_all(&mut file, content))
}

/// What a link names, where this is one.
fn behind_link(rt: &HostRuntime, name: Path<'_>) -> io::Result<Option<PathBuf>> {
    match fs::symlink_metadata(rt, name) {
        Ok(found) if found.is_symlink() => {
            let link = fs::read_link(rt, name)?;
            let folder = name.parent().unwrap_or(Path::new(""));
            Ok(Some(folder.join(rt.alloc(), link.as_path())?))
        }
        Ok(_) => Ok(None),
        Err(error) if error.kind() == ErrorKind::NotFound => Ok(None),
        Err(error) => Err(error),
    }
}

/// Writes a file where none is, behind at most `LINKS` links. False where there are more, or where they
/// lead round in a loop; nothing is written then.
fn write_first(rt: &HostRuntime, name: &str, content: &[u8]) -> io::Result<bool> {
    let mut target = Path::new(name).to_path_buf(rt.alloc())?;
    // The last round looks at what the last link names.
    for _ in 0..LINKS + 1 {
        match behind_link(rt, target.as_path())? {
            Some(next) => target = next,
            None => return replace(rt, target.as_path(), None, content),
        }
    }
    Ok(false)
}

/// Gives a name a content. False, or an error, where it isn't stored whole.
///
/// A link is followed as far as it goes; where that is nowhere, nothing is written. A file that is
/// there keeps its permissions; one that may not be written isn't replaced.
pub fn store(rt: &HostRuntime, name: &str, content: &[u8]) -> io::Result<bool> {
    match fs::metadata(rt, name) {
        Ok(found) if found.is_file() => {
            if found.permissions().readonly() {
                return Ok(false);
            }
            let target = fs::canonicalize(rt, name)?;
            replace(rt, target.as_path(), Some(found.permissions()), content)
        }
        Ok(_) => write_in_place(rt, name, content),
        Err(error) if error.kind() == ErrorKind::NotFound => write_first(rt, name, content),
        Err(error) => Err(error),
    }
}
