//! The solver: each run stands behind itself, and then one end after the other comes in.
ghost use Rattle.std.specs.Prelude.{ℕ, ◌≡◌, ◌≤◌, ◌<◌, ◌+◌, ◌-◌, length, get_or, take, Some, None, IfOk};
ghost use Rattle.least_replay.specs.Columns.{over, weight, all_columns, outside_count, IsPaired, IsGrowing, IsWaiting, IsSettled};
ghost use Rattle.least_replay.specs.CostView.{table_of};
ghost use Rattle.least_replay.specs.Tree.{at, IsMoved, IsFilled};

use crate::costs::Costs;
use crate::relaxing::{begin, count_over, weigh_end};
use crate::tree::grow;
use mt_base::Memory;
use std::alloc::Global;

/// Moves the row from which the hole is nearest there, and returns the column that it leaves.
fn move_on(
    rows: &[usize],
    from: &[u32],
    row_of: &mut [Option<usize>],
    col_of: &mut [usize],
    hole: usize,
) -> usize
    requires hole_within { hole < length from.now }
    requires from_whole { at from.now hole < length rows.now }
    requires columns { length from.now ≤ length row_of.old }
    requires rows_whole { at rows.now (at from.now hole) < length col_of.old }
    requires columns_whole { at col_of.old (at rows.now (at from.now hole)) < length from.now }
    ensures value { result ≡ at col_of.old (at rows.now (at from.now hole)) }
    ensures moved { IsMoved (at rows.now (at from.now hole)) hole result row_of.old row_of.new col_of.old
        col_of.new }
{
    let r = rows[from[hole] as usize];
    let j = col_of[r];
    col_of[r] = hole;
    row_of[hole] = Some(r);
    row_of[j] = None;
    j
}

/// Puts the new end behind the hole.
fn fill(b: usize, hole: usize, row_of: &mut [Option<usize>], col_of: &mut [usize])
    requires hole_within { hole < length row_of.old }
    requires row { b < length col_of.old }
    ensures { IsFilled b hole row_of.old row_of.new col_of.old col_of.new }
{
    col_of[b] = hole;
    row_of[hole] = Some(b);
}

/// Moves each row on the way from a free column back to the new end.
fn turn(
    costs: &Costs,
    b: usize,
    u: &[u32],
    v: &[u32],
    rows: &[usize],
    place: &[u32],
    from: &[u32],
    row_of: &mut [Option<usize>],
    col_of: &mut [usize],
    end: usize,
)
    requires end { (table_of costs.now).runs ≤ b }
    requires row { b < all_columns (table_of costs.now) }
    requires columns_whole { length col_of.old ≡ all_columns (table_of costs.now) }
    requires from_whole { length from.now ≡ b + 1 }
    requires rows_whole { length row_of.old ≡ all_columns (table_of costs.now) }
    requires hole { IsWaiting (table_of costs.now) b u.now v.now row_of.old col_of.old rows.now place.now
        from.now end }
    ensures { IsPaired (table_of costs.now) (b + 1) u.now v.now row_of.new col_of.new }
{
    let mut hole = end;
    while from[hole] > 0 {
        hole = move_on(rows, from, row_of, col_of, hole);
    }
    fill(b, hole, row_of, col_of);
}

/// The tree of a new end alone.
fn plant(
    costs: &Costs,
    b: usize,
    u: &mut [u32],
    v: &[u32],
    row_of: &[Option<usize>],
    col_of: &[usize],
    rows: &[usize],
    place: &[u32],
    from: &[u32],
    slack: &mut [u32],
)
    requires end { (table_of costs.now).runs ≤ b }
    requires row { b < all_columns (table_of costs.now) }
    requires u_whole { length u.old ≡ all_columns (table_of costs.now) }
    requires columns { length slack.old ≡ b + 1 }
    requires v_whole { length v.now ≡ all_columns (table_of costs.now) }
    requires matched { IsPaired (table_of costs.now) b u.old v.now row_of.now col_of.now }
    requires one { length rows.now ≡ 1 }
    requires root { at rows.now 0 ≡ b }
    requires outside { (j : ℕ) → at place.now j ≡ 0 }
    requires from_root { (j : ℕ) → at from.now j ≡ 0 }
    ensures { IsGrowing (table_of costs.now) b u.new v.now row_of.now col_of.now rows.now place.now
        from.now slack.new }
{
    begin(costs, b, v, slack);
    u[b] = 0;
}

/// Takes in one more end, with what the tree needs.
fn insert_with(
    costs: &Costs,
    b: usize,
    u: &mut [u32],
    v: &mut [u32],
    row_of: &mut [Option<usize>],
    col_of: &mut [usize],
    rows: &mut Vec<usize>,
    place: &mut [u32],
    from: &mut [u32],
    slack: &mut [u32],
) -> Result<(), Memory>
    requires end { (table_of costs.now).runs ≤ b }
    requires row { b < all_columns (table_of costs.now) }
    requires u_whole { length u.old ≡ all_columns (table_of costs.now) }
    requires columns_whole { length col_of.old ≡ all_columns (table_of costs.now) }
    requires columns { length slack.old ≡ b + 1 }
    requires v_whole { length v.old ≡ all_columns (table_of costs.now) }
    requires rows_whole { length row_of.old ≡ all_columns (table_of costs.now) }
    requires place_whole { length place.old ≡ length slack.old }
    requires from_whole { length from.old ≡ length slack.old }
    requires matched { IsPaired (table_of costs.now) b u.old v.old row_of.old col_of.old }
    requires one { length rows.old.items ≡ 1 }
    requires root { at rows.old.items 0 ≡ b }
    requires outside { (j : ℕ) → at place.old j ≡ 0 }
    requires from_root { (j : ℕ) → at from.old j ≡ 0 }
    requires room { outside_count place.old ≤ length slack.old }
    ensures { IfOk result (λ done. IsPaired (table_of costs.now) (b + 1) u.new v.new row_of.new
        col_of.new) }
{
    plant(
        costs,
        b,
        u,
        v,
        row_of,
        col_of,
        rows.as_slice(),
        place,
        from,
        slack,
    );
    let end = grow(costs, b, u, v, row_of, col_of, rows, place, from, slack)?;
    turn(
        costs,
        b,
        u,
        v,
        rows.as_slice(),
        place,
        from,
        row_of,
        col_of,
        end,
    );
    Ok(())
}

/// Takes in one more end.
fn insert(
    alloc: Global,
    costs: &Costs,
    b: usize,
    u: &mut [u32],
    v: &mut [u32],
    row_of: &mut [Option<usize>],
    col_of: &mut [usize],
) -> Result<(), Memory>
    requires end { (table_of costs.now).runs ≤ b }
    requires row { b < all_columns (table_of costs.now) }
    requires u_whole { length u.old ≡ all_columns (table_of costs.now) }
    requires columns_whole { length col_of.old ≡ all_columns (table_of costs.now) }
    requires v_whole { length v.old ≡ all_columns (table_of costs.now) }
    requires rows_whole { length row_of.old ≡ all_columns (table_of costs.now) }
    requires matched { IsPaired (table_of costs.now) b u.old v.old row_of.old col_of.old }
    ensures { IfOk result (λ done. IsPaired (table_of costs.now) (b + 1) u.new v.new row_of.new
        col_of.new) }
{
    let columns = b + 1;
    let mut rows = vec![in alloc; b]?;
    let mut place = vec![in alloc; 0u32; columns]?;
    let mut from = vec![in alloc; 0u32; columns]?;
    let mut slack = vec![in alloc; 0u32; columns]?;
    insert_with(
        costs, b, u, v, row_of, col_of, &mut rows, &mut place, &mut from, &mut slack,
    )
}

/// Puts each run behind itself.
fn leave_out(runs: usize, row_of: &mut [Option<usize>], col_of: &mut [usize])
    requires rows_whole { runs ≤ length row_of.old }
    requires columns_whole { runs ≤ length col_of.old }
    ensures row { (j : ℕ) → j < runs → get_or row_of.new j None ≡ Some j }
    ensures row_still { (j : ℕ) → runs ≤ j → get_or row_of.new j None ≡ get_or row_of.old j None }
    ensures column { (b : ℕ) → b < runs → at col_of.new b ≡ b }
{
    for b in 0..runs {
        row_of[b] = Some(b);
        col_of[b] = b;
    }
}

/// Takes what is stepped over, and what the first end has, from the numbers of runs.
fn lower_rows(u: &mut [u32], runs: usize, least: u32)
    requires few { runs ≤ 2000 }
    requires whole { runs ≤ length u.old }
    requires low { (b : ℕ) → b < runs → at u.old b ≤ 391 + over b }
    requires room { (b : ℕ) → b < runs → least ≤ at u.old b + over (runs - b) }
    ensures { (b : ℕ) → b < runs → at u.new b + least ≡ at u.old b + over (runs - b) }
{
    for b in 0..runs {
        u[b] = u[b] + count_over(runs - b) - least;
    }
}

/// Takes what the first end has from what an end's row reaches at each column.
fn lower_columns(costs: &Costs, v: &mut [u32], least: u32)
    requires low { (j : ℕ) → at v.old j ≤ 2000000391 }
    requires room { (j : ℕ) → j < length v.old →
        least ≤ weight (table_of costs.now) (table_of costs.now).runs j + at v.old j }
    ensures { (j : ℕ) → j < length v.old →
        at v.new j + least ≡ weight (table_of costs.now) (table_of costs.now).runs j + at v.old j }
{
    let runs = costs.runs() as usize;
    for j in 0..v.len() {
        v[j] = weigh_end(costs, runs, j) + v[j] - least;
    }
}

/// The column of each run, with the numbers of runs and columns. What stands in `u` and `col_of`
/// behind those of the runs is for the ends.
#[derive(Drop)]
pub struct Solution {
    pub u: Vec<u32>,
    pub v: Vec<u32>,
    pub col_of: Vec<usize>,
}

/// The number of the first end, or 0 where there is none.
fn first_end(costs: &Costs, u: &[u32]) -> u32
    requires whole { length u.now ≡ all_columns (table_of costs.now) }
    ensures none { (table_of costs.now).starts ≡ 0 → result ≡ 0 }
    ensures some { 0 < (table_of costs.now).starts → result ≡ at u.now (table_of costs.now).runs }
{
    if costs.starts() == 0 {
        return 0;
    }
    u[costs.runs() as usize]
}

/// Takes in the ends one after the other, and leaves the numbers of a certificate.
fn take_in(
    alloc: Global,
    costs: &Costs,
    u: &mut [u32],
    v: &mut [u32],
    row_of: &mut [Option<usize>],
    col_of: &mut [usize],
) -> Result<(), Memory>
    requires u_whole { length u.old ≡ all_columns (table_of costs.now) }
    requires v_whole { length v.old ≡ all_columns (table_of costs.now) }
    requires rows_whole { length row_of.old ≡ all_columns (table_of costs.now) }
    requires columns_whole { length col_of.old ≡ all_columns (table_of costs.now) }
    requires u_zero { (b : ℕ) → at u.old b ≡ 0 }
    requires v_zero { (j : ℕ) → at v.old j ≡ 0 }
    requires none { (j : ℕ) → get_or row_of.old j None ≡ None }
    ensures { IfOk result (λ done. IsSettled (table_of costs.now) (take (table_of costs.now).runs u.new)
        v.new (take (table_of costs.now).runs col_of.new)) }
{
    let runs = costs.runs() as usize;
    let columns = runs + costs.starts() as usize;
    leave_out(runs, row_of, col_of);
    for b in runs..columns {
        insert(alloc, costs, b, u, v, row_of, col_of)?;
    }
    let least = first_end(costs, u);
    lower_rows(u, runs, least);
    lower_columns(costs, v, least);
    Ok(())
}

/// A certificate, and the column of each run, from which it comes.
pub fn solve(alloc: Global, costs: &Costs) -> Result<Solution, Memory>
    ensures u_whole { IfOk result (λ s. length s.u.items ≡ all_columns (table_of costs.now)) }
    ensures columns_whole { IfOk result (λ s. length s.col_of.items ≡ all_columns (table_of costs.now)) }
    ensures settled { IfOk result (λ s. IsSettled (table_of costs.now) (take (table_of costs.now).runs s.u.items)
        s.v.items (take (table_of costs.now).runs s.col_of.items)) }
{
    let columns = costs.runs() as usize + costs.starts() as usize;
    let mut u = vec![in alloc; 0u32; columns]?;
    let mut v = vec![in alloc; 0u32; columns]?;
    let mut row_of: Vec<Option<usize>> = vec![in alloc; None; columns]?;
    let mut col_of = vec![in alloc; 0usize; columns]?;
    take_in(alloc, costs, &mut u, &mut v, &mut row_of, &mut col_of)?;
    Ok(Solution { u, v, col_of })
}
