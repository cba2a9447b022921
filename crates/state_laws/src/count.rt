//! How many messages bring a channel to a state.

ghost use Rattle.state_laws.specs.Counts.{SendsFewOnes, SendsAtMost, ChangesThoseThatDiffer, SendsAsMany};

/// At most one message for each controller and key pressure that differs, four for each parameter, and nine; and 391 at most
/// where no more than 16 parameters count in either state. Each parameter that differs is set once, and no other. There are
/// as many messages on each channel.
pub fn messages_are_few()
    ensures few { SendsFewOnes }
    ensures most { SendsAtMost }
    ensures those { ChangesThoseThatDiffer }
    ensures as_many { SendsAsMany }
{}
