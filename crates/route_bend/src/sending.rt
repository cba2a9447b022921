ghost use Rattle.std.specs.Prelude.{◌≡◌, ◌++◌, [], ◌∷◌, OnOk};
ghost use Rattle.midi_model.specs.Bring.{bring};
ghost use Rattle.receiver.specs.State.{state_of};

use arrayvec::ArrayVec;
use mt_base::{Channel, Memory, Msg};
use receiver::ChannelState;
use replay::bring;
use std::alloc::Global;

/// The messages that an event causes, one after the other.
#[derive(Drop)]
pub(crate) struct Sending {
    pub messages: Vec<Msg>,
    /// Those that bring one channel to a state.
    setup: ArrayVec<Msg, 400>,
}

impl Sending {
    /// No messages.
    pub fn new(alloc: Global) -> Sending
        ensures { result.messages.items ≡ [] }
    {
        Sending {
            messages: Vec::new(alloc),
            setup: ArrayVec::new(),
        }
    }

    /// No messages any more.
    pub fn clear(&mut self)
        ensures { self.new.messages.items ≡ [] }
    {
        self.messages.clear();
    }

    /// One message more.
    pub fn put(&mut self, message: Msg) -> Result<(), Memory>
        ensures { OnOk result (self.new.messages.items ≡ self.old.messages.items ++ message ∷ []) }
    {
        match self.messages.push(message) {
            Ok(()) => Ok(()),
            Err(_) => Err(Memory),
        }
    }

    /// And those that bring a channel from one state to another.
    pub fn bring(
        &mut self,
        now: &ChannelState,
        wanted: &ChannelState,
        channel: Channel,
    ) -> Result<(), Memory>
        ensures { OnOk result (self.new.messages.items ≡ self.old.messages.items
            ++ bring channel (state_of now.now) (state_of wanted.now)) }
    {
        self.setup.clear();
        bring(now, wanted, channel, &mut self.setup);
        match self.messages.extend_from_slice(self.setup.as_slice()) {
            Ok(()) => Ok(()),
            Err(_) => Err(Memory),
        }
    }
}
