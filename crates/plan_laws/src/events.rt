//! Laws of events, position by position. The function does nothing: its contract is what is stated.

ghost use Rattle.plan_laws.specs.EventLaws.{ResetIsOfEvent, EventsGoOn, BegunFollowsEvent};

use crate::counting::taken_laws;
use retune_model::next_laws;

/// What an event is to a port: a reset of it or not, and one more of its events. Where a note begins there is an event.
pub fn event_laws()
    ensures reset { ResetIsOfEvent }
    ensures events { EventsGoOn }
    ensures begun { BegunFollowsEvent }
{
    taken_laws();
    next_laws();
}
