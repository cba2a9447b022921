//! Which states a channel can be in.

ghost use Rattle.state_laws.specs.StateLaws.{StartsWellFormed, StaysWellFormed, EventsKeepThem, ReceiversAreWellFormed, EachChannelIs, StaysWellFormedWith};

use midi_model::parameter_laws;

/// A channel is well formed at the start and after any valid message. So are the channels of a receiver, with their key
/// pressures, after any list of valid events. A channel stays so with another bend sensitivity, bend and key pressures.
pub fn states_stay_well_formed()
    ensures start { StartsWellFormed }
    ensures message { StaysWellFormed }
    ensures event { EventsKeepThem }
    ensures receivers { ReceiversAreWellFormed }
    ensures channels { EachChannelIs }
    ensures given { StaysWellFormedWith }
{
    parameter_laws();
}
