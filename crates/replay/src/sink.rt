ghost use Rattle.std.specs.Prelude.{◌≡◌, ◌+◌, ◌<◌, ◌≤◌, ℕ, List, [], ◌∷◌, IsTrue, length, min, take};
ghost use Rattle.mt_base.specs.declared.event.Msg.{Msg as Message};
ghost use Rattle.replay.specs.Sinks.{Puts, IsDone};

use arrayvec::ArrayVec;
use mt_base::Msg;

/// Where messages go: to a list, or to a count of them.
pub(crate) trait Sink {
    /// What it is after these messages, of which this number and one more matter.
    ghost holds: { ℕ → Self → List Message → Type 0 };

    /// Takes a message.
    fn put(&mut self, message: Msg)
        ensures { Puts holds self.old self.new (message ∷ []) };

    /// Whether no further message changes anything.
    fn is_done(&self) -> bool
        ensures { IsTrue result → IsDone holds self.now };
}

/// The first 400 messages.
impl Sink for ArrayVec<Msg, 400> {
    ghost holds = { λ _ v ms. v.items ≡ take 400 ms };

    fn put(&mut self, message: Msg) {
        if self.len() < 400 {
            self.push(message);
        }
    }

    fn is_done(&self) -> bool {
        false
    }
}

/// How many messages there were, up to one more than matter.
#[derive(Drop)]
pub(crate) struct Count {
    pub count: u16,
    pub most: u16,
    ghost fits: { most < 65535 },
}

impl Sink for Count {
    ghost holds = { λ most c ms. (c.most ≡ most) × (c.count ≡ min (length ms) (most + 1)) };

    fn put(&mut self, _message: Msg) {
        if self.count <= self.most {
            self.count += 1;
        }
    }

    fn is_done(&self) -> bool {
        self.count > self.most
    }
}

/// Puts controllers of a channel, each with its value, in this order.
macro_rules! put_controllers {
    ($out:expr, $channel:expr, $($number:expr => $value:expr),+ $(,)?) => {
        $($out.put(Msg::Control {
            channel: $channel,
            number: $number,
            value: $value,
        });)+
    };
}

/// Puts controllers of a channel, each where its value now isn't the wanted one, in this order.
macro_rules! put_controllers_that_differ {
    ($out:expr, $channel:expr, $($number:expr => $now:expr, $wanted:expr);+ $(;)?) => {
        $(if $now != $wanted {
            put_controllers!($out, $channel, $number => $wanted);
        })+
    };
}

pub(crate) use put_controllers;
pub(crate) use put_controllers_that_differ;
