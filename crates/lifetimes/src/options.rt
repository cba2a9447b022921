use mt_base::Channel;

/// How notes get their pitches.
#[derive(Clone, Copy, Debug, PartialEq, Eq)]
pub enum Route {
    /// A bulk dump of a tuning program (MIDI Tuning Standard).
    Dump,
    /// A tuning change for each key (MIDI Tuning Standard).
    Live,
    /// Bends, on a channel for each pair of a part and a bend.
    Bend,
    /// Bends, on the members of zones (MPE 1.0).
    Mpe,
}

/// What is asked for.
#[derive(Clone, Copy, Debug, PartialEq, Eq)]
pub struct Options {
    pub route: Route,
    /// The bend sensitivity in semitones, 1 to 96.
    pub range: u8,
    /// Whether channel 10 isn't retuned.
    pub keep_drums: bool,
    /// The tuning program, at most 127.
    pub program: u8,
    /// For how many ticks after its end a note rests.
    pub tail: u32,
}

impl Route {
    ghost use Rattle.std.specs.Prelude.{◌≡◌};
    ghost use Rattle.lifetimes.specs.Views.{route_of};
    ghost use Rattle.retune_model.specs.Options.{bends_notes};
    ghost use Rattle.retune_model.specs.Faults.{is_bend};

    /// Whether notes get their pitches by bends.
    pub(crate) fn bends(self) -> bool
        ensures { result ≡ bends_notes (route_of self) }
    {
        match self {
            Route::Dump | Route::Live => false,
            Route::Bend | Route::Mpe => true,
        }
    }

    /// Whether this is the bend route, on which a pair has a channel of its port, and not of a zone.
    pub(crate) fn is_bend(self) -> bool
        ensures { result ≡ is_bend (route_of self) }
    {
        match self {
            Route::Bend => true,
            Route::Dump | Route::Live | Route::Mpe => false,
        }
    }
}

impl Options {
    ghost use Rattle.std.specs.Prelude.{◌≡◌};
    ghost use Rattle.lifetimes.specs.Views.{options_of};
    ghost use Rattle.retune_model.specs.Faults.{is_part};

    /// Whether the notes of a channel are retuned.
    pub fn retunes(&self, channel: Channel) -> bool
        ensures { result ≡ is_part (options_of self.now) channel }
    {
        !(self.keep_drums && channel.number() == 9)
    }
}
