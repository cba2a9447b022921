//! Laws of pairs and channels, over any sequence of sets of pairs in which at most one pair's run begins at each position.

ghost use Rattle.retune_model.specs.NeedLaws.{NoneHasFewer, FewerAreRefused, FreeOnesAreValid, FreeOnesAreAsMany, AllAreUsed, PairsStandOnce, NeedHasRoom, CountingFindsNeed};
ghost use Rattle.retune_model.specs.RunLaws.{PairsAreTold, NeedIsDetermined, NoPositionHasMore, TooFewRefuse, WitnessIsThere, RunsHaveRoom, LowestIsFree, FreePlacesAreValid, FreePlacesAreAsMany, PlacesAreUsed};

use crate::faults::sound_sources;
use crate::rests::rests_are_runs;

/// What is needed, and the instant, are determined; and no valid assignment of channels to notes has fewer.
pub fn need_laws()
    ensures determined { NeedIsDetermined }
    ensures fewest { NoPositionHasMore }
    ensures refused { TooFewRefuse }
    ensures witness { WitnessIsThere }
{}

/// The test by which pairs are told apart finds two of them the same just where they are.
pub fn pair_laws()
    ensures told { PairsAreTold }
{}

/// Where a run begins and no more than n pairs are there, one of the first n places is free. So a run that takes any free one always
/// finds one; then the assignment is valid and has as many channels as are needed. Taking the lowest free one is such a rule.
pub fn run_laws()
    ensures room { RunsHaveRoom }
    ensures lowest_is_free { LowestIsFree }
    ensures valid { FreePlacesAreValid }
    ensures as_many { FreePlacesAreAsMany }
    ensures all_used { PlacesAreUsed }
{}

/// For each port of a source without a fault, and for each tail: no valid assignment of channels to the port's notes has fewer
/// channels than the port needs. A rule that gives each run, as it begins, a free one of the first channels, as many as are needed,
/// gives a valid assignment with just so many, and at the instant each of them is in use; a free one is always there. The same holds of
/// the notes of one part.
pub fn fewest_channels()
    ensures fewest { NoneHasFewer }
    ensures refused { FewerAreRefused }
    ensures valid { FreeOnesAreValid }
    ensures as_many { FreeOnesAreAsMany }
    ensures all_used { AllAreUsed }
    ensures once { PairsStandOnce }
    ensures room { NeedHasRoom }
    ensures counted { CountingFindsNeed }
{
    rests_are_runs();
    sound_sources();
    need_laws();
    run_laws();
}
