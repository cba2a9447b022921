ghost use Rattle.std.specs.Prelude.{◌≡◌, IfSome, IfNone, IfErr, OnOk};
ghost use Rattle.mtune_core.specs.Accepted.{IsAccepted, NoneRose};
ghost use Rattle.mtune_core.specs.Status.{status_if};
ghost use Rattle.mtune_core.specs.Call.{IsDone, IsStopped, IsTold, IsRefused};
ghost use Rattle.command_line.specs.Words.{texts};

use crate::accepted::accepted_has_no_fault;
use crate::lines::line_of;
use crate::outcome::{Fault, Outcome, status};
use crate::preparing::prepare;
use command_line::read_words;
use mtune_files::Files;
use std::alloc::Global;

/// All that the words ask for, but what is said of a fault.
fn perform<F: Files>(alloc: Global, words: &[&str], files: &mut F) -> Result<(), Fault>
    ensures done { OnOk result
        (IsDone (F.outside files.old) (F.outside files.new) (texts words.now)) }
    ensures stopped { IfErr result
        (λ e. IsStopped (F.outside files.old) (F.outside files.new) (texts words.now) e) }
{
    let command = read_words(alloc, words)?;
    let made = prepare(alloc, &command, files)?;
    if files.store(command.out, &made.output).is_err() {
        return Err(Fault::Store);
    }
    if files.say(&made.report).is_err() {
        return Err(Fault::Say);
    }
    Ok(())
}

/// Says the line of a fault, but after a failed say nothing. Where this fails too, no more can be
/// said.
fn tell<F: Files>(files: &mut F, fault: &Fault)
    ensures { IsTold (F.outside files.old) (F.outside files.new) fault.now }
{
    if !matches!(fault, Fault::Say) {
        let _ = files.say(line_of(fault).as_str().as_bytes());
    }
}

/// Does what the words ask for, and says a report or the line of its fault.
///
/// The words are those behind the name of the program. Without a fault each content was loaded once,
/// the output was stored once and the report said once. A fault ended the work: nothing was done
/// after it but that its line was said, or that failed. After `Say` nothing more is said.
pub fn run<F: Files>(alloc: Global, words: &[&str], files: &mut F) -> Outcome
    ensures status { result.status ≡ status_if result.fault }
    ensures done { IfNone result.fault
        (IsDone (F.outside files.old) (F.outside files.new) (texts words.now)) }
    ensures refused { IfSome result.fault
        (λ e. IsRefused (F.outside files.old) (F.outside files.new) (texts words.now) e) }
    ensures accepts { IsAccepted (F.outside files.old) (texts words.now)
        → NoneRose (F.outside files.old).faults (F.outside files.new).faults
        → IfSome result.fault (λ e. e ≡ Fault.Memory) }
{
    match perform(alloc, words, files) {
        Ok(()) => Outcome {
            status: 0,
            fault: None,
        },
        Err(fault) => {
            accepted_has_no_fault();
            tell(files, &fault);
            Outcome {
                status: status(&fault),
                fault: Some(fault),
            }
        }
    }
}
