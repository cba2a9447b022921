ghost use Rattle.std.specs.Prelude.{◌≡◌, IfOk, map, string_bytes};
ghost use Rattle.std.specs.Process.{exit_status};
ghost use Rattle.command_line.specs.Words.{texts};
ghost use Rattle.mtune_real.specs.Ended.{IsEnded};

use crate::real::RealFiles;
use mtune_core::{Outcome, run};
use mtune_files::Files;
use std::alloc::{AllocError, Global};
use std::env;
use std::io::ErrorKind;
use std::process::ExitCode;

/// The status where there is no memory for the words.
const MEMORY: u8 = 4;

/// The status where the system doesn't give the words as text.
const NO_TEXT: u8 = 6;

/// The words as slices.
fn slices(alloc: Global, words: &[String]) -> Result<Vec<&str>, AllocError>
    ensures { IfOk result (λ v. texts v.items ≡ map string_bytes words.entry.now) }
{
    let mut slices = Vec::new(alloc);
    for word in words {
        slices.push(word.as_str())?;
    }
    Ok(slices)
}

/// What the process ends with after a call.
fn exit_code(outcome: &Outcome) -> ExitCode
    ensures { exit_status result ≡ outcome.now.status }
{
    ExitCode::from(outcome.status)
}

/// Does what the words behind the program's name ask for.
fn perform<F: Files>(alloc: Global, words: &[String], files: &mut F) -> ExitCode
    ensures { IsEnded (exit_status result)
        (F.outside files.old) (F.outside files.new) (map string_bytes words.now) }
{
    match slices(alloc, words) {
        Ok(slices) => exit_code(&run(alloc, slices.as_slice(), files)),
        Err(_) => ExitCode::from(MEMORY),
    }
}

/// The whole program: the words of the process, done over the files of the system.
pub fn answer(rt: HostRuntime) -> ExitCode {
    let words: Vec<String> = match env::args(&rt) {
        Ok(args) => match args.skip(1).collect(rt.alloc()) {
            Ok(words) => words,
            Err(_) => return ExitCode::from(MEMORY),
        },
        Err(error) if error.kind() == ErrorKind::OutOfMemory => return ExitCode::from(MEMORY),
        Err(_) => return ExitCode::from(NO_TEXT),
    };
    perform(rt.alloc(), words.as_slice(), &mut RealFiles::new(rt))
}
