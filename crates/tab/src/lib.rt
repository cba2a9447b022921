//! Tables of bytes over stated defaults, which are compared and copied by the entries that differ
//! from these.
#![tactic(auto)]

ghost use Rattle.std.specs.Prelude.{◌≡◌, ◌<◌, ◌≤◌, ◌+◌, ◌↔◌, IsTrue, length, slice_index, slice_set, IfSome, IfNone, ℕ, nat_eq, if◌then◌else◌};
ghost use Rattle.std.specs.Int.{bit_at};
ghost use Rattle.tab.specs.Entries.{Looked, SameBetween, DifferAt, differing};

use std::marker::Model;

#[cfg(test)]
mod tests;

/// A table of `N` bytes over its defaults, at most 128. Places count from 0. Contracts see the list of
/// the defaults and the list of the entries. A table isn't `Copy`; `copy` gives an equal one.
#[derive(Drop)]
pub struct Tab<const N: usize> {
    base: [u8; N],
    items: [u8; N],
    /// Bit i is set exactly where entry i isn't its default.
    mask: u128,
}

/// What a comparison found: the place of the first difference, and how many entries were looked at.
#[derive(Clone, Copy, Debug)]
pub struct Found {
    pub place: Option<usize>,
    pub looked: usize,
}

impl<const N: usize> Model for Tab<N> {
    ghost use Rattle.std.specs.Prelude.{◌≡◌, ◌<◌, ◌≤◌, slice_index, ℕ};
    ghost use Rattle.std.specs.Int.{bit_at};
    ghost use Rattle.tab.specs.Entries.{Entries, differs};

    ghost Value = { Entries };

    ghost view = { λ t. record { defaults = t.base; items = t.items } };

    ghost invariant = { λ t. (N ≤ 128)
        × ((i : ℕ) → i < N
        → bit_at t.mask i ≡ differs (slice_index t.base i) (slice_index t.items i)) };
}

impl<const N: usize> Tab<N> {
    /// A table whose entries are all their defaults. `N` is at most 128.
    pub fn new(base: [u8; N]) -> Tab<N>
        requires { N ≤ 128 }
        ensures defaults { result.defaults ≡ base.entry }
        ensures items { result.items ≡ base.entry }
    {
        Tab {
            base,
            items: base,
            mask: 0,
        }
    }

    /// How many entries there are: `N`.
    pub fn len(&self) -> usize
        ensures value { result ≡ N }
        ensures few { result ≤ 128 }
        ensures defaults { length self.now.defaults ≡ N }
        ensures items { length self.now.items ≡ N }
    {
        let _items = &self.items;
        N
    }

    /// The entry at a place below `N`.
    pub fn get(&self, place: usize) -> u8
        requires { place < N }
        ensures { result ≡ slice_index self.now.items place }
    {
        self.items[place]
    }

    /// Changes the entry at a place below `N`, and no other.
    pub fn set(&mut self, place: usize, value: u8)
        requires { place < N }
        ensures items { self.new.items ≡ slice_set self.old.items place value }
        ensures length { length self.new.items ≡ N }
        ensures defaults { self.new.defaults ≡ self.old.defaults }
    {
        self.items[place] = value;
        let bit = 1u128 << place as u32;
        if value == self.base[place] {
            self.mask &= !bit;
        } else {
            self.mask |= bit;
        }
    }

    /// The least place at or after `from`, which is at most `N`, where two tables over the same
    /// defaults differ; none where there is none. It looks only at entries that aren't the default
    /// in one of the two.
    pub fn next_difference(&self, other: &Tab<N>, from: usize) -> Option<usize>
        requires bases { self.now.defaults ≡ other.now.defaults }
        requires from { from ≤ N }
        ensures place { IfSome result (λ i. (from ≤ i) × (i < N)) }
        ensures differs { IfSome result (λ i. DifferAt i self.now.items other.now.items) }
        ensures least { IfSome result (λ i. SameBetween from i self.now.items other.now.items) }
        ensures none { IfNone result (SameBetween from N self.now.items other.now.items) }
    {
        self.find_difference(other, from).place
    }

    /// The same, and how many entries were looked at: those from `from` to the place found, or to the
    /// end, at which one of the two isn't at its default.
    pub fn find_difference(&self, other: &Tab<N>, from: usize) -> Found
        requires bases { self.now.defaults ≡ other.now.defaults }
        requires from { from ≤ N }
        ensures place { IfSome result.place (λ i. (from ≤ i) × (i < N)) }
        ensures differs { IfSome result.place (λ i. DifferAt i self.now.items other.now.items) }
        ensures least { IfSome result.place
            (λ i. SameBetween from i self.now.items other.now.items) }
        ensures none { IfNone result.place (SameBetween from N self.now.items other.now.items) }
        ensures looked { IfSome result.place
            (λ i. Looked self.now.items other.now from (i + 1) result.looked) }
        ensures looked_all { IfNone result.place
            (Looked self.now.items other.now from N result.looked) }
    {
        let both = self.mask | other.mask;
        let mut looked = 0;
        let mut i = from;
        while i < N {
            let skip = (both >> i as u32).trailing_zeros() as usize;
            if skip >= N - i {
                return Found {
                    place: None,
                    looked,
                };
            }
            i += skip;
            looked += 1;
            if self.items[i] != other.items[i] {
                return Found {
                    place: Some(i),
                    looked,
                };
            }
            i += 1;
        }
        Found {
            place: None,
            looked,
        }
    }

    /// Whether two tables over the same defaults hold the same entries.
    pub fn is_equal(&self, other: &Tab<N>) -> bool
        requires { self.now.defaults ≡ other.now.defaults }
        ensures { IsTrue result ↔ (self.now.items ≡ other.now.items) }
    {
        let _lengths = (self.len(), other.len());
        self.next_difference(other, 0).is_none()
    }

    /// At how many places two tables over the same defaults differ.
    pub fn count_differences(&self, other: &Tab<N>) -> usize
        requires { self.now.defaults ≡ other.now.defaults }
        ensures { result ≡ differing self.now.items other.now.items N }
    {
        let mut count = 0;
        let mut from = 0;
        while let Some(place) = self.next_difference(other, from) {
            count += 1;
            from = place + 1;
        }
        count
    }

    /// Gives the entries of these places their defaults: bit i of the mask stands for place i. It touches
    /// only entries that differ.
    pub fn reset(&mut self, which: u128)
        ensures items { (i : ℕ) → i < N → slice_index self.new.items i
            ≡ (if nat_eq (bit_at which i) 1 then slice_index self.old.defaults i
            else slice_index self.old.items i) }
        ensures length { length self.new.items ≡ N }
        ensures defaults { self.new.defaults ≡ self.old.defaults }
    {
        let away = self.mask & which;
        let mut i = 0;
        while i < N {
            let skip = (away >> i as u32).trailing_zeros() as usize;
            if skip >= N - i {
                break;
            }
            i += skip;
            self.items[i] = self.base[i];
            i += 1;
        }
        self.mask &= !which;
    }

    /// Takes over the entries of another table over the same defaults.
    pub fn apply(&mut self, other: &Tab<N>)
        requires { self.old.defaults ≡ other.now.defaults }
        ensures items { self.new.items ≡ other.now.items }
        ensures defaults { self.new.defaults ≡ self.old.defaults }
    {
        self.items = other.items;
        self.mask = other.mask;
    }

    /// A table with the same defaults and entries.
    pub fn copy(&self) -> Tab<N>
        ensures { result ≡ self.now }
    {
        Tab {
            base: self.base,
            items: self.items,
            mask: self.mask,
        }
    }
}
