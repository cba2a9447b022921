ghost use Rattle.std.specs.Prelude.{◌≡◌, ◌<◌, ◌≤◌, ◌+◌, ℕ, ℤ, false, nat_eq, OnOk};
ghost use Rattle.receiver.specs.Notes.{has};
ghost use Rattle.lifetimes.specs.Resting.{IsAdmitted, end_kept};
ghost use Rattle.lifetimes.specs.OnePart.{IsPartKept, PartEnds, PartForgets};

use crate::notes::Notes;
use crate::port::Ended;
use mt_base::{Channel, Memory};
use std::collections::VecDeque;

// The notes of one part that end, and how long their pairs rest.
impl Notes {
    /// Makes room for the rest of a pair.
    pub fn admit(&mut self, steps: i32) -> Result<(), Memory>
        ensures struck { self.new.struck ≡ self.old.struck }
        ensures sounding { self.new.sounding ≡ self.old.sounding }
        ensures ends { (q : ℤ) → end_kept self.new.rests.items.items q
            ≡ end_kept self.old.rests.items.items q }
        ensures admitted { (q : ℤ) → IsAdmitted self.old.rests.items.items q
            → IsAdmitted self.new.rests.items.items q }
        ensures here { OnOk result (IsAdmitted self.new.rests.items.items steps) }
    {
        self.rests.admit(steps)
    }

    /// The note on a key ended, where one sounds there, and its pair rests from then on. Answers
    /// the steps of the pair that rests.
    fn end_at(&mut self, key: u8, tick: u32, tail: u32) -> Option<i32>
        requires key { key < 128 }
        requires kept { IsPartKept tail self.old }
        ensures { PartEnds false (λ k. nat_eq k key) tick tail self.old self.new }
    {
        let Some(steps) = self.end(key) else {
            return None;
        };
        if tail == 0 {
            return None;
        }
        self.rests.end(steps, tick);
        Some(steps)
    }

    /// The notes ended on the keys that bits of a mask stand for. The ends of those that rest are
    /// put into the queue, which has room for them.
    fn end_each(
        &mut self,
        keys: u128,
        channel: Channel,
        tick: u32,
        tail: u32,
        queue: &mut VecDeque<Ended>,
    )
        requires { IsPartKept tail self.old }
        ensures { PartEnds false (has keys) tick tail self.old self.new }
    {
        let mut rest = keys;
        while rest != 0 {
            let key = rest.trailing_zeros();
            if let Some(steps) = self.end_at(key as u8, tick, tail) {
                put(
                    queue,
                    Ended {
                        channel,
                        steps,
                        tick,
                    },
                );
            }
            rest &= !(1u128 << key);
        }
    }

    /// The same, where a key is told at all: of most channels none is.
    #[inline(always)]
    pub fn end_all(
        &mut self,
        keys: u128,
        channel: Channel,
        tick: u32,
        tail: u32,
        queue: &mut VecDeque<Ended>,
    )
        requires { IsPartKept tail self.old }
        ensures { PartEnds false (has keys) tick tail self.old self.new }
    {
        if keys != 0 {
            self.end_each(keys, channel, tick, tail, queue);
        }
    }

    /// A rest ran out: of the pair with so many steps, which ended last at a tick. A pair that
    /// sounds keeps its place.
    pub fn run_out(&mut self, steps: i32, end: u32)
        ensures { (tick tail : ℕ) → end + tail ≤ tick → PartForgets tick tail self.old self.new }
    {
        if !self.sounds(steps) {
            self.rests.forget(steps, end);
        }
    }
}

/// Puts an end at the back of a queue that has room for it, and takes no memory.
fn put(queue: &mut VecDeque<Ended>, ended: Ended) {
    if queue.len() < queue.capacity() {
        queue.push_back_reserved(ended);
    }
}
