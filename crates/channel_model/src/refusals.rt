//! Laws of refusals. The function does nothing: its contract is what is stated.

ghost use Rattle.channel_model.specs.Refusals.{FitsOrRefused, OnePairMore, NoneIsAllowed, OneRefusal};

use retune_model::{fewest_channels, need_laws};

/// A source that fits isn't refused, and a source has one refusal at most. Where a port or a zone needs more channels than it may have,
/// the pairs that are told are one more than that, and all different; so no valid assignment makes do.
pub fn refusal_laws()
    ensures apart { FitsOrRefused }
    ensures pairs { OnePairMore }
    ensures none { NoneIsAllowed }
    ensures one { OneRefusal }
{
    need_laws();
    fewest_channels();
}
