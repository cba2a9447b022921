ghost use Rattle.std.specs.Prelude.{◌≡◌, ◌≤◌, ℕ, List, [], ◌∷◌, ◌++◌, drop, map, IfSome, IfNone};
ghost use Rattle.mt_base.specs.Midi.{MidiEvent, view};

use mt_base::Event;

/// Events that come one by one, and that can be gone through again. It means two lists: all its events,
/// and the rest, which are still to come.
pub trait EventStream<'a> {
    ghost all: { Self → List MidiEvent };

    ghost rest: { Self → List MidiEvent };

    /// The first event of the rest, which is taken off. None exactly where the rest is empty.
    fn next(&mut self) -> Option<Event<'a>>
        ensures all { all self.new ≡ all self.old }
        ensures some { IfSome result (λ e. rest self.old ≡ view e ∷ rest self.new) }
        ensures none { IfNone result ((rest self.old ≡ []) × (rest self.new ≡ [])) };

    /// Makes the rest all events again.
    fn rewind(&mut self)
        ensures all { all self.new ≡ all self.old }
        ensures rest { rest self.new ≡ all self.old };
}
