//! Laws of the front of a file. The functions do nothing: their contracts are what is stated.

ghost use Rattle.retune_model.specs.FrontLaws.{TickIsKept, EventsAreKept, EventIsKept, ResetIsKept, MusicIsKept, NotesAreKept, HoldingIsKept, PairsAreKept, HeldAreKept, BegunAreKept, MostIsKept, TickOfNext, EventOfNext, EventsWithNext, NeedWithNext, FaultIsKept, FrontIsFaultless, NextIsFaultless, FirstIsKept, NextIsFirst};

use crate::faults::fault_laws;

/// At each position up to the last of a front of a file, all is in the file as it is in the front.
pub fn front_laws()
    ensures tick { TickIsKept }
    ensures events { EventsAreKept }
    ensures event { EventIsKept }
    ensures reset { ResetIsKept }
    ensures music { MusicIsKept }
    ensures notes { NotesAreKept }
    ensures holding { HoldingIsKept }
    ensures pairs { PairsAreKept }
    ensures held { HeldAreKept }
    ensures begun { BegunAreKept }
    ensures most { MostIsKept }
{}

/// What the event right behind a front brings: its tick, whether it is of a port, and what is needed up to it.
pub fn next_laws()
    ensures tick { TickOfNext }
    ensures event { EventOfNext }
    ensures events { EventsWithNext }
    ensures need { NeedWithNext }
{}

/// The fault of an event of a front is its fault in the file. So the first fault of a file is found at the first event that has one in
/// the front that it ends.
pub fn front_faults()
    ensures same { FaultIsKept }
    ensures faultless { FrontIsFaultless }
    ensures next { NextIsFaultless }
    ensures kept { FirstIsKept }
    ensures first { NextIsFirst }
{
    fault_laws();
}
