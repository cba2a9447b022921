//! Laws of a channel's parameters. The function does nothing: its contract is what is stated.

ghost use Rattle.midi_model.specs.ParameterLaws.{PutGivesTheValue, PutLeavesTheOthers, PutKeepsTheForm, EqualByValues};

/// A parameter that is given a value has it then, and each other parameter keeps its own. A list of parameters that is in order,
/// with each number once and no default, stays so; and two such lists, of numbers in bytes of seven bits, that give each
/// parameter the same value are one list.
pub fn parameter_laws()
    ensures given { PutGivesTheValue }
    ensures others { PutLeavesTheOthers }
    ensures form { PutKeepsTheForm }
    ensures equal { EqualByValues }
{}
