//! Laws of powers and of pitches, for proofs: each function does nothing, and its contract is the law.
ghost use Rattle.mt_base.specs.Laws.{EndsInOrder, LeastOfDifference, LeastOfExact, LeastOfGreater, LeastOfLess, LeastOfMultiple, LeastOfOctaves, LeastOfOctavesDown, LeastOfSum, MostOfDifference, MostOfExact, MostOfMore, MostOfMultiple, MostOfOctaves, MostOfOctavesDown, MostOfSmaller, MostOfSum, PowerOfPower, PowerOfProduct, PowerOfSum, PowersGrow, PowersTell};

/// The laws of powers.
pub fn powers()
    ensures of_sum { PowerOfSum }
    ensures of_product { PowerOfProduct }
    ensures of_power { PowerOfPower }
    ensures grow { PowersGrow }
    ensures tell { PowersTell }
{}

/// The bounds of a sum of two pitches.
pub fn sums()
    ensures least { LeastOfSum }
    ensures most { MostOfSum }
{}

/// The bounds of a difference of two pitches.
pub fn differences()
    ensures least { LeastOfDifference }
    ensures most { MostOfDifference }
{}

/// The bounds of a sum of equal pitches.
pub fn multiples()
    ensures least { LeastOfMultiple }
    ensures most { MostOfMultiple }
{}

/// A wider bracket holds too.
pub fn wider()
    ensures least { LeastOfLess }
    ensures most { MostOfMore }
{}

/// The lower end of a bracket is at most the upper one.
pub fn ends()
    ensures in_order { EndsInOrder }
{}

/// A whole number of grains is exactly that.
pub fn exact()
    ensures least { LeastOfExact }
    ensures most { MostOfExact }
{}

/// Octaves up and down are exact.
pub fn octaves()
    ensures least { LeastOfOctaves }
    ensures most { MostOfOctaves }
    ensures least_down { LeastOfOctavesDown }
    ensures most_down { MostOfOctavesDown }
{}

/// Pitches are in the order of their ratios.
pub fn ratios()
    ensures least { LeastOfGreater }
    ensures most { MostOfSmaller }
{}
