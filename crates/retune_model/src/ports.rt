//! Laws of ports. The functions do nothing: their contracts are what is stated.

ghost use Rattle.retune_model.specs.PortLaws.{TrackNamesThePort, OnePortHasAll, EventsToAPosition, MusicAtAPosition, OwnEventsPlay, OtherEventsDont, PortsAreTimed};

/// The port of an event is the one that its track named last, up to and including the event, and 0 where it named none. In a file
/// in which no event names another port than 0, all events are of port 0.
pub fn port_laws()
    ensures port { TrackNamesThePort }
    ensures one_port { OnePortHasAll }
{}

/// Position k is the moment after the first k events of the whole file. The music of a port changes at events of this port alone.
pub fn position_laws()
    ensures events { EventsToAPosition }
    ensures music { MusicAtAPosition }
    ensures own { OwnEventsPlay }
    ensures other { OtherEventsDont }
    ensures timed { PortsAreTimed }
{}
