ghost use Rattle.std.specs.Prelude.{◌≡◌, ◌↔◌, ◌<◌, ◌≤◌, ◌≤ℤ◌, ℕ, ℤ, Bool, true, false, Some, None, [], length, slice_get, ◌&&◌, ◌||◌, not, nat_eq, if◌then◌else◌, filter, IfSome, IfNone};
ghost use Rattle.retune_model.specs.Faults.{int_eq};
ghost use Rattle.retune_model.specs.Rests.{is_within_tail};
ghost use Rattle.lifetimes.specs.Lists.{ListsSounding, AreInTurn, IsPlaceIn, comes_before, entry_of, entry_at, struck_at, any_key, has_steps, is_beside, is_unison};
ghost use Rattle.lifetimes.specs.Resting.{IsLeast, end_kept};

use crate::rests::Rests;
use arrayvec::ArrayVec;
use key_pitch::Aim;
use std::alloc::Global;

/// What was begun on a key: the place of its note among all retuned notes, and its target.
#[derive(Clone, Copy, Debug)]
pub(crate) struct Struck {
    pub note: u32,
    pub target: Aim,
}

/// A note that sounds: the steps and the key of its target, and its source key. On dump and live
/// the steps are 0, and the key of the target is the source key.
#[derive(Clone, Copy, Debug, Default, PartialEq, Eq)]
pub(crate) struct Sounding {
    pub steps: i32,
    pub target: u8,
    pub key: u8,
}

/// The retuned notes of one part.
#[derive(Drop)]
pub(crate) struct Notes {
    /// What was begun last on each source key.
    struck: [Struck; 128],
    /// The notes that sound, in order.
    sounding: ArrayVec<Sounding, 128>,
    /// The pairs that sound or rest, where notes rest.
    pub rests: Rests,
    pub ghost in_turn: { AreInTurn sounding.items },
}

/// The order in which notes are listed: by steps, by the key of the target, by the source key.
fn is_before(note: &Sounding, other: &Sounding) -> bool
    ensures { result ≡ comes_before note.now other.now }
{
    (note.steps, note.target, note.key) < (other.steps, other.target, other.key)
}

/// The place of a target among those that sound.
pub(crate) fn sounding_of(key: u8, target: Aim) -> Sounding
    ensures { result ≡ entry_of key target }
{
    match target {
        Aim::Bend { key: near, steps } => Sounding {
            steps,
            target: near,
            key,
        },
        Aim::Unmapped | Aim::OutOfDevice | Aim::Mts { .. } => Sounding {
            steps: 0,
            target: key,
            key,
        },
    }
}

impl Notes {
    /// No note sounds or rests.
    pub fn new(alloc: Global) -> Notes
        ensures sounding { ListsSounding result.struck result.sounding.items (λ k. false) }
        ensures rests { result.rests.items.items ≡ [] }
    {
        Notes {
            struck: [Struck {
                note: 0,
                target: Aim::Unmapped,
            }; 128],
            sounding: ArrayVec::new(),
            rests: Rests::new(alloc),
        }
    }

    /// What was begun last on a key.
    pub fn struck(&self, key: u8) -> Struck
        requires { key < 128 }
        ensures { result ≡ struck_at self.now.struck key }
    {
        self.struck[key as usize]
    }

    /// The steps of what was begun last on a key.
    pub fn steps(&self, key: u8) -> i32
        requires { key < 128 }
        ensures { result ≡ (entry_at self.now.struck key).steps }
    {
        sounding_of(key, self.struck[key as usize].target).steps
    }

    /// The place of the first note that isn't before one.
    fn from(&self, note: Sounding) -> usize
        ensures bound { result ≤ length self.now.sounding.items }
        ensures few { result ≤ 128 }
        ensures point { IsPlaceIn self.now.sounding.items note result }
    {
        self.sounding
            .as_slice()
            .partition_point(|other| is_before(other, &note))
    }

    /// The note at a place.
    fn at(&self, place: usize) -> Option<Sounding>
        ensures { result ≡ slice_get self.now.sounding.items place }
    {
        self.sounding.as_slice().get(place).copied()
    }

    /// Whether a note stands at a place.
    fn is_at(&self, place: usize, note: Sounding) -> bool
        ensures { (result ≡ true) ↔ (slice_get self.now.sounding.items place ≡ Some note) }
    {
        self.at(place) == Some(note)
    }

    /// The first note whose target has at least so many steps.
    fn first_from(&self, steps: i32) -> Option<Sounding>
        ensures some { IfSome result (λ x. IsLeast (has_steps self.now.sounding.items) steps x.steps) }
        ensures none { IfNone result ((q : ℤ) → steps ≤ℤ q
            → has_steps self.now.sounding.items q ≡ false) }
    {
        self.at(self.from(Sounding {
            steps,
            target: 0,
            key: 0,
        }))
    }

    /// Whether a note sounds whose target has so many steps.
    pub fn sounds(&self, steps: i32) -> bool
        ensures listed { result ≡ has_steps self.now.sounding.items steps }
        ensures keys { (at : ℕ → Bool) → ListsSounding self.now.struck self.now.sounding.items at → result
            ≡ any_key (λ k. at k && int_eq (entry_at self.now.struck k).steps steps) 128 }
    {
        match self.first_from(steps) {
            Some(note) => note.steps == steps,
            None => false,
        }
    }

    /// Whether a note of another key with the same target stands at a place.
    fn is_unison(&self, place: usize, wanted: Sounding) -> bool
        ensures { result ≡ is_unison wanted (slice_get self.now.sounding.items place) }
    {
        match self.at(place) {
            Some(note) => {
                note.steps == wanted.steps && note.target == wanted.target && note.key != wanted.key
            }
            None => false,
        }
    }

    /// Whether another key sounds with the same target.
    pub fn has_unison(&self, key: u8, target: Aim) -> bool
        requires { key < 128 }
        ensures { (at : ℕ → Bool) → ListsSounding self.now.struck self.now.sounding.items at → result
            ≡ any_key (λ k. at k && (not (nat_eq k key)
            && is_beside (entry_of key target) (entry_at self.now.struck k))) 128 }
    {
        let wanted = sounding_of(key, target);
        let place = self.from(Sounding { key: 0, ..wanted });
        // The key itself may stand first.
        self.is_unison(place, wanted) || self.is_unison(place + 1, wanted)
    }

    /// The least steps, from a number of steps on, of a pair that sounds or rests.
    pub fn least(&self, from: i32, tail: u32, tick: u32) -> Option<i32>
        ensures some { IfSome result (λ q. IsLeast (λ p. has_steps self.now.sounding.items p
            || is_within_tail tail tick (end_kept self.now.rests.items.items p)) from q) }
        ensures none { IfNone result ((p : ℤ) → from ≤ℤ p
            → (has_steps self.now.sounding.items p
            || is_within_tail tail tick (end_kept self.now.rests.items.items p)) ≡ false) }
    {
        let resting = self.rests.least(from, tail, tick);
        match (self.first_from(from), resting) {
            (Some(note), Some(steps)) => Some(if steps < note.steps {
                steps
            } else {
                note.steps
            }),
            (Some(note), None) => Some(note.steps),
            (None, resting) => resting,
        }
    }

    /// A note begins on a key on which none sounds.
    pub fn begin(&mut self, key: u8, struck: Struck)
        requires { key < 128 }
        ensures sounding { (at : ℕ → Bool) → ListsSounding self.old.struck self.old.sounding.items at → at key ≡ false
            → ListsSounding self.new.struck self.new.sounding.items (λ k. if nat_eq k key then true else at k) }
        ensures pairs { (q : ℤ) → has_steps self.new.sounding.items q ≡ true
            → (int_eq (entry_of key struck.target).steps q || has_steps self.old.sounding.items q) ≡ true }
        ensures struck { (k : ℕ) → k < 128 → struck_at self.new.struck k
            ≡ (if nat_eq k key then struck else struck_at self.old.struck k) }
        ensures rests { self.new.rests.items.items ≡ self.old.rests.items.items }
    {
        self.struck[key as usize] = struck;
        let note = sounding_of(key, struck.target);
        let place = self.from(note);
        if !self.is_at(place, note) && !self.sounding.is_full() {
            self.sounding.insert(place, note);
        }
    }

    /// The note on a key ended, where one sounds there. Answers the steps of its pair.
    pub fn end(&mut self, key: u8) -> Option<i32>
        requires { key < 128 }
        ensures sounding { (at : ℕ → Bool) → ListsSounding self.old.struck self.old.sounding.items at
            → ListsSounding self.new.struck self.new.sounding.items (λ k. if nat_eq k key then false else at k) }
        ensures told { (at : ℕ → Bool) → ListsSounding self.old.struck self.old.sounding.items at
            → result ≡ (if at key then Some (entry_at self.old.struck key).steps else None) }
        ensures there { IfSome result (λ q. has_steps self.old.sounding.items q ≡ true) }
        ensures pairs { (q : ℤ) → has_steps self.new.sounding.items q ≡ true
            → has_steps self.old.sounding.items q ≡ true }
        ensures struck { self.new.struck ≡ self.old.struck }
        ensures rests { self.new.rests.items.items ≡ self.old.rests.items.items }
    {
        let note = sounding_of(key, self.struck[key as usize].target);
        let place = self.from(note);
        if !self.is_at(place, note) {
            return None;
        }
        self.sounding.remove(place);
        Some(note.steps)
    }

    /// All notes ended, and none rests.
    pub fn clear(&mut self)
        ensures sounding { ListsSounding self.new.struck self.new.sounding.items (λ k. false) }
        ensures struck { self.new.struck ≡ self.old.struck }
        ensures rests { self.new.rests.items.items ≡ [] }
    {
        self.sounding.clear();
        self.rests.clear();
    }

    /// The notes that sound whose targets have so many steps, in the order of their target keys.
    pub fn with_steps(&self, steps: i32) -> &[Sounding]
        ensures { result.now ≡ filter (λ x. int_eq x.steps steps) self.now.sounding.items }
    {
        let place = self.from(Sounding {
            steps,
            target: 0,
            key: 0,
        });
        let all = &self.sounding.as_slice()[place..];
        &all[..all.partition_point(|note| note.steps == steps)]
    }
}
