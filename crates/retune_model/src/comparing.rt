//! Laws of what is compared place by place. The functions do nothing: their contracts are what is stated.

ghost use Rattle.retune_model.specs.Places.{NotesPlaceByPlace, SoundPlaceByPlace, BeginningsPlaceByPlace, ValidPlaceByPlace};

/// The sentences of "plays the same" hold exactly where they hold at every tick and place, an assignment is valid exactly where it is at
/// every position.
pub fn place_laws()
    ensures notes { NotesPlaceByPlace }
    ensures sound { SoundPlaceByPlace }
    ensures beginnings { BeginningsPlaceByPlace }
    ensures valid { ValidPlaceByPlace }
{}
