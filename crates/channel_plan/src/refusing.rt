ghost use Rattle.std.specs.Prelude.{◌≡◌, ◌≤◌, ℕ, suc, Bool, List, length, take, IfSome, IfNone};
ghost use Rattle.mt_base.specs.Midi.{MidiEvent};
ghost use Rattle.retune_model.specs.Options.{Options};
ghost use Rattle.retune_model.specs.Faults.{Targets};
ghost use Rattle.channel_model.specs.Refusals.{NeedsMore, NeedsAtMost};
ghost use Rattle.channel_plan.specs.Refused.{too_many_of};
ghost use Rattle.channel_plan.specs.Counts.{CountsOf};

use crate::counter::Counter;
use crate::fault::TooMany;
use arrayvec::ArrayVec;
use mt_base::Pair;
use retune_model::need_laws;

/// The first of some pairs, so many at most.
fn first_pairs(pairs: &[Pair], count: usize) -> ArrayVec<Pair, 17>
    requires { count ≤ 17 }
    ensures { result.items ≡ take count pairs.now }
{
    let mut first = ArrayVec::new();
    for pair in pairs {
        if first.len() == count {
            return first;
        }
        first.push(*pair);
    }
    first
}

/// What is told where a port, or a zone of it, needs more channels than it may have, at most 16. None exactly where
/// it doesn't.
pub(crate) fn refused(port: u8, counter: &Counter, allowed: u32) -> Option<TooMany>
    requires { allowed ≤ 16 }
    ensures some { (o : Options) (part : ℕ → Bool) (table : Targets) (es : List MidiEvent)
        → CountsOf o part table es port counter.now
        → IfSome result (λ t. NeedsMore o part table es port allowed (too_many_of t)) }
    ensures none { (o : Options) (part : ℕ → Bool) (table : Targets) (es : List MidiEvent)
        → CountsOf o part table es port counter.now
        → IfNone result (NeedsAtMost o part table es port allowed) }
{
    need_laws();
    if counter.need <= allowed {
        return None;
    }
    Some(TooMany {
        port,
        need: counter.need,
        allowed,
        instant: counter.instant,
        pairs: first_pairs(counter.witness.as_slice(), allowed as usize + 1),
    })
}
