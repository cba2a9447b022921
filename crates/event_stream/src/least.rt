ghost use Rattle.std.specs.Prelude.{◌≡◌, ◌<◌, ◌≤◌, ℕ, ◌+◌, ◌*◌, ◌/◌, ◌%◌, ◌-◌, length, slice_set, slice_index, replicate, All, Contains};
ghost use Rattle.event_stream.specs.Tree.{IsTree, IsTreeBut, IsBelowOthers, leaves, numbers_in};

use std::marker::Model;

/// The most numbers that there may be.
const MOST: usize = 1024;

/// Some numbers, and which is the least: in a tree of places from 1 on, the numbers are the leaves, and each place above holds
/// the lesser of the two below it. The last number that was put waits outside the tree as long as it stays the least.
#[derive(Drop)]
pub(crate) struct Least {
    tree: [u64; 2 * MOST],
    count: usize,
    place: usize,
    number: u64,
    rival: u64,
}

impl Model for Least {
    ghost use Rattle.std.specs.Prelude.{ℕ, List};
    ghost use Rattle.event_stream.specs.Tree.{numbers_in, IsLeast};

    ghost Value = { List ℕ };

    ghost view = { λ t. numbers_in t.count t.tree t.place t.number };

    ghost invariant = { λ t. IsLeast t.count t.tree t.place t.number t.rival };
}

impl Least {
    /// So many numbers, each the greatest that there is.
    pub(crate) fn new(count: usize) -> Least
        requires some { 0 < count }
        requires few { count ≤ 1024 }
        ensures { result ≡ replicate count u64.MAX }
    {
        Least {
            tree: [u64::MAX; 2 * MOST],
            count,
            place: 0,
            number: u64::MAX,
            rival: 0,
        }
    }

    /// The least of the numbers.
    pub(crate) fn first(&self) -> u64
        ensures least { All (λ (k : ℕ). result ≤ k) self.now }
        ensures among { Contains self.now result }
    {
        if self.number < self.rival {
            self.number
        } else {
            self.tree[1]
        }
    }

    /// Puts another number in a place, and gives the least of the numbers then.
    #[inline]
    pub(crate) fn set(&mut self, place: usize, number: u64) -> u64
        requires { place < length self.old }
        ensures set { self.new ≡ slice_set self.old place number }
        ensures least { All (λ (k : ℕ). result ≤ k) self.new }
        ensures among { Contains self.new result }
    {
        if place == self.place && number < self.rival {
            // It stays the least.
            self.number = number;
            return number;
        }
        let count = self.count;
        let before = self.place;
        let waiting = self.number;
        self.rival = take_over(&mut self.tree, count, before, waiting, place, number);
        self.place = place;
        self.number = number;
        self.tree[1]
    }
}

/// Puts a number that waits into its leaf, and then another into one, and gives a number that no other
/// than the second is less than.
fn take_over(
    tree: &mut [u64],
    count: usize,
    before: usize,
    waiting: u64,
    place: usize,
    number: u64,
) -> u64
    requires size { length tree.old ≡ 2048 }
    requires few { count ≤ 1024 }
    requires before { before < count }
    requires exists { place < count }
    requires tree { IsTree count tree.old }
    ensures tree { IsTree count tree.new }
    ensures leaves { leaves count tree.new ≡ slice_set (numbers_in count tree.old before waiting) place number }
    ensures others { IsBelowOthers result place (leaves count tree.new) }
{
    if place != before {
        settle(tree, count, before, waiting);
    }
    put(tree, count, place, number)
}

/// Puts a number that waits into its leaf, where it isn't there.
#[inline]
fn settle(tree: &mut [u64], count: usize, place: usize, number: u64)
    requires size { length tree.old ≡ 2048 }
    requires few { count ≤ 1024 }
    requires exists { place < count }
    requires tree { IsTree count tree.old }
    ensures tree { IsTree count tree.new }
    ensures leaves { leaves count tree.new ≡ numbers_in count tree.old place number }
{
    if tree[count + place] != number {
        put(tree, count, place, number);
    }
}

/// Puts a number into a leaf, and gives a number that no other is less than.
fn put(tree: &mut [u64], count: usize, place: usize, number: u64) -> u64
    requires size { length tree.old ≡ 2048 }
    requires few { count ≤ 1024 }
    requires exists { place < count }
    requires tree { IsTree count tree.old }
    ensures tree { IsTree count tree.new }
    ensures leaves { leaves count tree.new ≡ numbers_in count tree.old place number }
    ensures others { IsBelowOthers result place (leaves count tree.new) }
{
    let leaf = count + place;
    tree[leaf] = number;
    mend(tree, count, leaf)
}

/// Puts the lesser of the two numbers below into each place above a leaf that was changed, and gives a
/// number that no other leaf is less than.
fn mend(tree: &mut [u64], count: usize, leaf: usize) -> u64
    requires size { length tree.old ≡ 2048 }
    requires few { count ≤ 1024 }
    requires some { 0 < leaf }
    requires least { count ≤ leaf }
    requires inside { leaf < 2 * count }
    requires but_one { IsTreeBut (leaf / 2) count tree.old }
    ensures mended { IsTree count tree.new }
    ensures leaves { leaves count tree.new ≡ leaves count tree.old }
    ensures others { IsBelowOthers result (leaf - count) (leaves count tree.new) }
{
    let mut at = leaf;
    let mut least = tree[leaf];
    let mut others = u64::MAX;
    while at > 1 {
        let other = beside(tree, at);
        others = others.min(other);
        least = least.min(other);
        at /= 2;
        tree[at] = least;
    }
    others
}

/// The number in the place that has the same place above it as another.
#[inline]
fn beside(tree: &[u64], at: usize) -> u64
    requires size { length tree.now ≡ 2048 }
    requires inside { at / 2 < 1024 }
    requires below { 1 < at }
    ensures even { at % 2 ≡ 0 → result ≡ slice_index tree.now (at + 1) }
    ensures odd { at % 2 ≡ 1 → result ≡ slice_index tree.now (at - 1) }
{
    // Without a branch: the odd place after an even one, and the even place before an odd one.
    tree[at / 2 * 2 + 1 - at % 2]
}
