//! Laws of counting runs, event by event. The function does nothing: its contract is what is stated.

ghost use Rattle.plan_laws.specs.RunCounts.{RunIsCounted, NoRunIsCounted, NoneBeginsUnbegun, RunIsOfPart, BeginsOfPart};

use crate::counting::counting_laws;
use retune_model::{fewest_channels, held_laws, pair_laws, sound_sources};

/// At an event at most one run begins, and only with a note of its pair. The runs of one part begin
/// where they do among those of all parts.
pub fn run_counts()
    ensures one { RunIsCounted }
    ensures none { NoRunIsCounted }
    ensures unbegun { NoneBeginsUnbegun }
    ensures part { RunIsOfPart }
    ensures begins { BeginsOfPart }
{
    pair_laws();
    sound_sources();
    held_laws();
    fewest_channels();
    counting_laws();
}
