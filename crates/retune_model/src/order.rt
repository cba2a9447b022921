//! Laws of the order of pairs. The functions do nothing: their contracts are what is stated.

ghost use Rattle.retune_model.specs.PairOrder.{PairsAreOrdered, HeldAreOrdered, OrderedAreTheSame, WithOneMore, ThatPass, HasOneMore, HasThatPass};

/// The pairs at a position, and those held at an event, stand by part and then by steps, none twice.
pub fn pairs_in_order()
    ensures pairs { PairsAreOrdered }
    ensures held { HeldAreOrdered }
{}

/// Two lists of pairs in this order with the same members are the same. A list in order stays so with one pair more, and with those
/// alone that pass a test; and what is in it then.
pub fn order_laws()
    ensures same { OrderedAreTheSame }
    ensures more { WithOneMore }
    ensures pass { ThatPass }
    ensures has_more { HasOneMore }
    ensures has_pass { HasThatPass }
{}
