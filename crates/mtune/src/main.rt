//! `mtune`: rewrites a Standard MIDI File so that an ordinary synthesizer plays it in a just or unequal scale.
#![tactic(auto)]

use std::process::ExitCode;

fn main(rt: HostRuntime) -> ExitCode {
    mtune_real::answer(rt)
}
