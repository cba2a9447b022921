ghost use Rattle.std.specs.Prelude.{◌≡◌, ◌≢◌, ◌<◌, ◌≤◌, ◌≤ℤ◌, ℕ, ℤ, false, length, Some, if◌then◌else◌, IfSome, IfNone, OnOk, []};
ghost use Rattle.retune_model.specs.Faults.{int_eq};
ghost use Rattle.lifetimes.specs.Resting.{AreRising, IsPlaceOf, IsAdmitted, IsLeastResting, steps_at, end_kept, without_end};
ghost use Rattle.retune_model.specs.Rests.{is_within_tail};

use mt_base::Memory;
use std::alloc::Global;

/// A pair of one part, by its steps, and the tick at which a note of it ended last; none before.
#[derive(Clone, Copy, Debug)]
pub(crate) struct Rest {
    pub steps: i32,
    pub end: Option<u32>,
}

/// The pairs of one part that sound or rest, by their steps. Without a tail there are none here.
#[derive(Drop)]
pub(crate) struct Rests {
    items: Vec<Rest>,
    pub ghost rising: { AreRising items.items },
}

/// Whether an end is less than a tail before a tick.
pub(crate) fn is_within_tail(tail: u32, tick: u32, end: Option<u32>) -> bool
    ensures { result ≡ is_within_tail tail tick end }
{
    match end {
        Some(end) => (tick as u64) < end as u64 + tail as u64,
        None => false,
    }
}

impl Rests {
    pub fn new(alloc: Global) -> Rests
        ensures { result.items.items ≡ [] }
    {
        Rests {
            items: Vec::new(alloc),
        }
    }

    /// The place of the first pair with at least so many steps.
    fn from(&self, steps: i32) -> usize
        ensures bound { result ≤ length self.now.items.items }
        ensures point { IsPlaceOf self.now.items.items steps result }
    {
        self.items
            .as_slice()
            .partition_point(|rest| rest.steps < steps)
    }

    /// The place of a pair.
    fn place(&self, steps: i32) -> Option<usize>
        ensures some { IfSome result (λ i. i < length self.now.items.items) }
        ensures at { IfSome result (λ i. steps_at self.now.items.items i ≡ steps) }
        ensures none { IfNone result ((k : ℕ) → k < length self.now.items.items
            → steps_at self.now.items.items k ≢ steps) }
    {
        let place = self.from(steps);
        match self.items.as_slice().get(place) {
            Some(rest) if rest.steps == steps => Some(place),
            Some(_) | None => None,
        }
    }

    /// Makes room for a pair.
    pub fn admit(&mut self, steps: i32) -> Result<(), Memory>
        ensures ends { (q : ℤ) → end_kept self.new.items.items q
            ≡ end_kept self.old.items.items q }
        ensures admitted { (q : ℤ) → IsAdmitted self.old.items.items q
            → IsAdmitted self.new.items.items q }
        ensures here { OnOk result (IsAdmitted self.new.items.items steps) }
    {
        if self.place(steps).is_some() {
            return Ok(());
        }
        let place = self.from(steps);
        match self.items.insert(place, Rest { steps, end: None }) {
            Ok(()) => Ok(()),
            Err(_) => Err(Memory),
        }
    }

    /// A note of a pair ended.
    pub fn end(&mut self, steps: i32, tick: u32)
        requires { IsAdmitted self.old.items.items steps }
        ensures ends { (q : ℤ) → end_kept self.new.items.items q
            ≡ (if int_eq steps q then Some tick else end_kept self.old.items.items q) }
        ensures admitted { (q : ℤ) → IsAdmitted self.old.items.items q
            → IsAdmitted self.new.items.items q }
    {
        if let Some(place) = self.place(steps) {
            self.items[place].end = Some(tick);
        }
    }

    /// Whether a pair rests.
    pub fn rests(&self, steps: i32, tail: u32, tick: u32) -> bool
        ensures { result ≡ is_within_tail tail tick (end_kept self.now.items.items steps) }
    {
        match self.place(steps) {
            Some(place) => is_within_tail(tail, tick, self.items[place].end),
            None => false,
        }
    }

    /// The least steps, from a number of steps on, of a pair that rests.
    pub fn least(&self, from: i32, tail: u32, tick: u32) -> Option<i32>
        ensures some { IfSome result (λ q. IsLeastResting self.now.items.items from tail tick q) }
        ensures none { IfNone result ((p : ℤ) → from ≤ℤ p
            → is_within_tail tail tick (end_kept self.now.items.items p) ≡ false) }
    {
        let first = self.from(from);
        for place in first..self.items.len() {
            let rest = self.items[place];
            if is_within_tail(tail, tick, rest.end) {
                return Some(rest.steps);
            }
        }
        None
    }

    /// Forgets a pair whose last end was at this tick.
    pub fn forget(&mut self, steps: i32, end: u32)
        ensures ends { (q : ℤ) → end_kept self.new.items.items q
            ≡ without_end steps end q (end_kept self.old.items.items q) }
        ensures admitted { (q : ℤ) → int_eq steps q ≡ false → IsAdmitted self.old.items.items q
            → IsAdmitted self.new.items.items q }
    {
        let Some(place) = self.place(steps) else {
            return;
        };
        if let Some(last) = self.items[place].end {
            if last == end {
                self.items.remove(place);
            }
        }
    }

    /// Forgets all.
    pub fn clear(&mut self)
        ensures { self.new.items.items ≡ [] }
    {
        self.items.clear();
    }
}
