//! The tree of rows and columns that grows from a new end.
ghost use Rattle.std.specs.Prelude.{ℕ, ◌≡◌, ◌≤◌, ◌<◌, ◌+◌, ◌-◌, ◌^◌, length, Some, None, IsTrue, IsFalse, IfOk};
ghost use Rattle.least_replay.specs.Columns.{all_columns, outside_count, IsGrowing, IsWaiting};
ghost use Rattle.least_replay.specs.CostView.{table_of};
ghost use Rattle.least_replay.specs.Tree.{at, row_at, IsRaised};

use crate::costs::Costs;
use crate::relaxing::relax;
use mt_base::Memory;

/// The nearest of a column and those of a range that are outside of the tree. It looks from the
/// last to the first, since what is next is mostly what ended last before, and stops at a column
/// that is as near as can be.
fn scan(place: &[u32], slack: &[u32], first: usize, last: usize, best: usize) -> usize
    requires order { first ≤ last }
    requires end { last ≤ length slack.now }
    requires place_whole { length place.now ≡ length slack.now }
    requires best_within { best < length slack.now }
    requires best_outside { at place.now best ≡ 0 }
    ensures within { result < length slack.now }
    ensures outside { at place.now result ≡ 0 }
    ensures no_farther { at slack.now result ≤ at slack.now best }
    ensures least { (j : ℕ) → first ≤ j → j < last → at place.now j ≡ 0 →
        at slack.now result ≤ at slack.now j }
{
    let mut nearest = best;
    let mut least = slack[best];
    for i in first..last {
        if least == 0 {
            return nearest;
        }
        let j = first + (last - 1 - i);
        if slack[j] < least {
            if place[j] == 0 {
                nearest = j;
                least = slack[j];
            }
        }
    }
    nearest
}

/// The column outside of the tree that is nearest to it. It looks first at what stands before the
/// one that came in last.
fn nearest(place: &[u32], slack: &[u32], came: usize) -> usize
    requires place_whole { length place.now ≡ length slack.now }
    requires came_within { came < length slack.now }
    requires spare { at place.now (length slack.now - 1) ≡ 0 }
    ensures within { result < length slack.now }
    ensures outside { at place.now result ≡ 0 }
    ensures least { (j : ℕ) → j < length slack.now → at place.now j ≡ 0 →
        at slack.now result ≤ at slack.now j }
{
    let best = scan(place, slack, 0, came, slack.len() - 1);
    scan(place, slack, came, slack.len(), best)
}

/// One number for what is in the tree, and another for what is outside.
fn share(place: u32, inside: u32, outside: u32) -> u32
    ensures inside { 0 < place → result ≡ inside }
    ensures outside { place ≡ 0 → result ≡ outside }
{
    if place != 0 { inside } else { outside }
}

/// Raises each row of the tree.
fn raise_rows(u: &mut [u32], b: usize, col_of: &[usize], place: &[u32], by: u32)
    requires row { b < length u.old }
    requires columns_whole { b ≤ length col_of.now }
    requires place_whole { (r : ℕ) → r < b → at col_of.now r < length place.now }
    requires room { (r : ℕ) → r < b + 1 → at u.old r + by < 2 ^ 32 }
    ensures rows { (r : ℕ) → r < b → 0 < at place.now (at col_of.now r) → at u.new r ≡ at u.old r + by }
    ensures rows_still { (r : ℕ) → r < b → at place.now (at col_of.now r) ≡ 0 → at u.new r ≡ at u.old r }
    ensures new { at u.new b ≡ at u.old b + by }
{
    for r in 0..b {
        u[r] += share(place[col_of[r]], by, 0);
    }
    u[b] += by;
}

/// Raises each column of the tree, and brings the others nearer.
fn raise_columns(v: &mut [u32], slack: &mut [u32], place: &[u32], by: u32)
    requires v_whole { length slack.old ≤ length v.old }
    requires place_whole { length place.now ≡ length slack.old }
    requires room { (j : ℕ) → at v.old j + by < 2 ^ 32 }
    requires near { (j : ℕ) → j < length slack.old → at place.now j ≡ 0 → by ≤ at slack.old j }
    ensures up { (j : ℕ) → 0 < at place.now j → at v.new j ≡ at v.old j + by }
    ensures still { (j : ℕ) → at place.now j ≡ 0 → at v.new j ≡ at v.old j }
    ensures slack_still { (j : ℕ) → 0 < at place.now j → at slack.new j ≡ at slack.old j }
    ensures nearer { (j : ℕ) → j < length slack.old → at place.now j ≡ 0 →
        at slack.new j + by ≡ at slack.old j }
{
    for j in 0..slack.len() {
        v[j] += share(place[j], by, 0);
        slack[j] -= share(place[j], 0, by);
    }
}

/// Raises the tree.
fn raise(
    b: usize,
    u: &mut [u32],
    v: &mut [u32],
    col_of: &[usize],
    place: &[u32],
    slack: &mut [u32],
    by: u32,
)
    requires row { b < length u.old }
    requires columns_whole { b ≤ length col_of.now }
    requires place_whole { length place.now ≡ length slack.old }
    requires v_whole { length slack.old ≤ length v.old }
    requires rows_within { (r : ℕ) → r < b → at col_of.now r < length place.now }
    requires by_low { by ≤ 2000000391 }
    requires u_low { (r : ℕ) → r < b + 1 → at u.old r ≤ 2000000391 }
    requires v_low { (j : ℕ) → at v.old j ≤ 2000000391 }
    requires near { (j : ℕ) → j < length slack.old → at place.now j ≡ 0 → by ≤ at slack.old j }
    ensures { IsRaised b (length slack.old) by col_of.now place.now u.old u.new v.old v.new slack.old
        slack.new }
{
    if by == 0 {
        return;
    }
    raise_rows(u, b, col_of, place, by);
    raise_columns(v, slack, place, by);
}

/// Raises the tree until it reaches a column, and returns that column.
fn approach(
    costs: &Costs,
    b: usize,
    u: &mut [u32],
    v: &mut [u32],
    row_of: &[Option<usize>],
    col_of: &[usize],
    rows: &[usize],
    place: &[u32],
    from: &[u32],
    slack: &mut [u32],
    came: usize,
) -> usize
    requires end { (table_of costs.now).runs ≤ b }
    requires row { b < all_columns (table_of costs.now) }
    requires u_whole { length u.old ≡ all_columns (table_of costs.now) }
    requires columns_whole { length col_of.now ≡ all_columns (table_of costs.now) }
    requires columns { length slack.old ≡ b + 1 }
    requires v_whole { length v.old ≡ all_columns (table_of costs.now) }
    requires rows_whole { length row_of.now ≡ all_columns (table_of costs.now) }
    requires place_whole { length place.now ≡ length slack.old }
    requires came_within { came < length slack.old }
    requires tree { IsGrowing (table_of costs.now) b u.old v.old row_of.now col_of.now rows.now place.now
        from.now slack.old }
    ensures tree { IsGrowing (table_of costs.now) b u.new v.new row_of.now col_of.now rows.now place.now
        from.now slack.new }
    ensures within { result < length slack.new }
    ensures outside { at place.now result ≡ 0 }
    ensures tightly { at slack.new result ≡ 0 }
{
    let j = nearest(place, slack, came);
    let by = slack[j];
    raise(b, u, v, col_of, place, slack, by);
    j
}

/// Takes the row of a column into the tree.
fn join(
    costs: &Costs,
    b: usize,
    r: usize,
    j: usize,
    u: &[u32],
    v: &[u32],
    row_of: &[Option<usize>],
    col_of: &[usize],
    rows: &mut Vec<usize>,
    place: &mut [u32],
    from: &mut [u32],
    slack: &mut [u32],
) -> Result<(), Memory>
    requires end { (table_of costs.now).runs ≤ b }
    requires row { b < all_columns (table_of costs.now) }
    requires u_whole { length u.now ≡ all_columns (table_of costs.now) }
    requires columns { length slack.old ≡ b + 1 }
    requires v_whole { length v.now ≡ all_columns (table_of costs.now) }
    requires place_whole { length place.old ≡ length slack.old }
    requires from_whole { length from.old ≡ length slack.old }
    requires tree { IsGrowing (table_of costs.now) b u.now v.now row_of.now col_of.now rows.old.items
        place.old from.old slack.old }
    requires within { j < length slack.old }
    requires outside { at place.old j ≡ 0 }
    requires tightly { at slack.old j ≡ 0 }
    requires held { row_at row_of.now j ≡ Some r }
    requires room { length rows.old.items + outside_count place.old ≤ length slack.old + 1 }
    ensures tree { IfOk result (λ done. IsGrowing (table_of costs.now) b u.now v.now row_of.now col_of.now
        rows.new.items place.new from.new slack.new) }
    ensures room { IfOk result (λ done. length rows.new.items + outside_count place.new ≤ length slack.new +
        1) }
    ensures fewer { IfOk result (λ done. outside_count place.new < outside_count place.old) }
{
    let size = rows.len() as u32;
    rows.push(r)?;
    place[j] = size;
    relax(costs, r, u[r], v, size, slack, from);
    Ok(())
}

/// Grows the tree until it reaches a column that no row has, and returns that column.
pub fn grow(
    costs: &Costs,
    b: usize,
    u: &mut [u32],
    v: &mut [u32],
    row_of: &[Option<usize>],
    col_of: &[usize],
    rows: &mut Vec<usize>,
    place: &mut [u32],
    from: &mut [u32],
    slack: &mut [u32],
) -> Result<usize, Memory>
    requires end { (table_of costs.now).runs ≤ b }
    requires row { b < all_columns (table_of costs.now) }
    requires u_whole { length u.old ≡ all_columns (table_of costs.now) }
    requires columns_whole { length col_of.now ≡ all_columns (table_of costs.now) }
    requires columns { length slack.old ≡ b + 1 }
    requires v_whole { length v.old ≡ all_columns (table_of costs.now) }
    requires rows_whole { length row_of.now ≡ all_columns (table_of costs.now) }
    requires place_whole { length place.old ≡ length slack.old }
    requires from_whole { length from.old ≡ length slack.old }
    requires room { length rows.old.items + outside_count place.old ≤ length slack.old + 1 }
    requires tree { IsGrowing (table_of costs.now) b u.old v.old row_of.now col_of.now rows.old.items
        place.old from.old slack.old }
    ensures { IfOk result (λ j. IsWaiting (table_of costs.now) b u.new v.new row_of.now col_of.now
        rows.new.items place.new from.new j) }
{
    let mut came = b;
    loop {
        let j = approach(
            costs,
            b,
            u,
            v,
            row_of,
            col_of,
            rows.as_slice(),
            place,
            from,
            slack,
            came,
        );
        came = j;
        match row_of[j] {
            None => return Ok(j),
            Some(r) => join(
                costs, b, r, j, u, v, row_of, col_of, rows, place, from, slack,
            )?,
        }
    }
}
