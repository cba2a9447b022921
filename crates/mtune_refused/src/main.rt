//! The same program as `mtune`, run once on words that it refuses: no scale has the name that they give.
#![tactic(auto)]

use std::process::ExitCode;

fn main(rt: HostRuntime) -> ExitCode {
    mtune_real::answer(rt)
}
