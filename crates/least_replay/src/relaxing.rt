//! What rows cost behind columns, and how near columns come to a row.
ghost use Rattle.std.specs.Prelude.{ℕ, ◌≡◌, ◌≢◌, ◌⊎◌, ◌≤◌, ◌<◌, ◌+◌, ◌-◌, ◌*◌, length, get_or, Some, None};
ghost use Rattle.least_replay.specs.Columns.{over, step, weight, IsNearer};
ghost use Rattle.least_replay.specs.Costs.{told};
ghost use Rattle.least_replay.specs.CostView.{table_of};
ghost use Rattle.least_replay.specs.Tree.{at, IsRelaxed};

use crate::costs::Costs;

/// What a run counts that no chain takes up.
const SKIPPED: u32 = 1_000_000;

/// What some runs count that a step leaves out.
pub fn count_over(gap: usize) -> u32
    requires { gap ≤ 2000 }
    ensures { result ≡ over gap }
{
    gap as u32 * SKIPPED
}

/// What the row of an end costs behind a column.
pub fn weigh_end(costs: &Costs, r: usize, j: usize) -> u32
    requires end { (table_of costs.now).runs ≤ r }
    ensures value { result ≡ weight (table_of costs.now) r j }
    ensures bound { result ≤ 2000000000 }
{
    let runs = costs.runs() as usize;
    if j < runs {
        count_over(runs - 1 - j)
    } else {
        count_over(runs)
    }
}

/// How near each column is to an end.
pub fn begin(costs: &Costs, b: usize, v: &[u32], slack: &mut [u32])
    requires end { (table_of costs.now).runs ≤ b }
    requires columns { length slack.old ≤ length v.now }
    requires low { (j : ℕ) → at v.now j ≤ 2000000391 }
    ensures near { (j : ℕ) → j < length slack.new →
        at slack.new j ≡ weight (table_of costs.now) b j + at v.now j }
{
    for j in 0..slack.len() {
        slack[j] = weigh_end(costs, b, j) + v[j];
    }
}

/// How near a column is at most, once a row has come in from which a step costs as told.
fn nearer(cost: u16, gap: usize, u: u32, v: u32, slack: u32) -> u32
    requires few { gap ≤ 2000 }
    requires u_low { u ≤ 2000000391 }
    requires v_low { v ≤ 2000000391 }
    requires near { slack ≤ 2000000000 + v }
    requires fits { u ≤ step gap (told cost) + v }
    ensures bound { result ≤ slack }
    ensures least { result + u ≤ step gap (told cost) + v }
    ensures which { (result ≡ slack) ⊎ (result + u ≡ step gap (told cost) + v) }
{
    let reach = (cost as u32 + count_over(gap) + v).saturating_sub(u);
    let near = if cost == u16::MAX { slack } else { reach };
    if near < slack { near } else { slack }
}

/// Brings a column as near as it is to a row to which a step costs as told.
fn relax_step(
    cost: u16,
    gap: usize,
    u: u32,
    v: u32,
    size: u32,
    j: usize,
    slack: &mut [u32],
    from: &mut [u32],
)
    requires few { gap ≤ 2000 }
    requires column { j < length slack.old }
    requires from_columns { length from.old ≡ length slack.old }
    requires u_low { u ≤ 2000000391 }
    requires v_low { v ≤ 2000000391 }
    requires near { at slack.old j ≤ 2000000000 + v }
    requires fits { u ≤ step gap (told cost) + v }
    ensures relaxed { IsRelaxed size u (step gap (told cost) + v) (at slack.old j) (at slack.new j) (at from.old j)
        (at from.new j) }
    ensures slack_still { (i : ℕ) → i ≢ j → at slack.new i ≡ at slack.old i }
    ensures from_still { (i : ℕ) → i ≢ j → at from.new i ≡ at from.old i }
{
    let old = slack[j];
    let old_from = from[j];
    let near = nearer(cost, gap, u, v, old);
    from[j] = if near < old { size } else { old_from };
    slack[j] = near;
}

/// Brings a column as near as it is to a row that costs `cost` there.
fn relax_one(cost: u32, u: u32, v: u32, size: u32, j: usize, slack: &mut [u32], from: &mut [u32])
    requires column { j < length slack.old }
    requires from_columns { length from.old ≡ length slack.old }
    requires cost_low { cost ≤ 2000000391 }
    requires v_low { v ≤ 2000000391 }
    requires fits { u ≤ cost + v }
    ensures relaxed { IsRelaxed size u (cost + v) (at slack.old j) (at slack.new j) (at from.old j) (at from.new j) }
    ensures slack_still { (i : ℕ) → i ≢ j → at slack.new i ≡ at slack.old i }
    ensures from_still { (i : ℕ) → i ≢ j → at from.new i ≡ at from.old i }
{
    let near = cost + v - u;
    if near < slack[j] {
        slack[j] = near;
        from[j] = size;
    }
}

/// Brings the runs before run r as near as they are to its row.
fn relax_behind(
    costs: &Costs,
    r: u16,
    u: u32,
    v: &[u32],
    size: u32,
    slack: &mut [u32],
    from: &mut [u32],
)
    requires run { r < (table_of costs.now).runs }
    requires columns { (table_of costs.now).runs ≤ length slack.old }
    requires v_columns { length slack.old ≤ length v.now }
    requires from_columns { length from.old ≡ length slack.old }
    requires u_low { u ≤ 2000000391 }
    requires v_low { (j : ℕ) → at v.now j ≤ 2000000391 }
    requires near { (j : ℕ) → at slack.old j ≤ 2000000000 + at v.now j }
    requires fits { (j : ℕ) → j < length slack.old → u ≤ weight (table_of costs.now) r j + at v.now j }
    ensures { IsNearer (table_of costs.now) r 0 r size u v.now
        slack.old slack.new from.old from.new }
{
    let row = costs.row(r);
    for a in 0..row.len() {
        relax_step(row[a], row.len() - 1 - a, u, v[a], size, a, slack, from);
    }
}

/// Brings the starts as near as they are to a row, and each run to the row of an end.
fn relax_from(
    costs: &Costs,
    r: usize,
    first: usize,
    u: u32,
    v: &[u32],
    size: u32,
    slack: &mut [u32],
    from: &mut [u32],
)
    requires end { first < (table_of costs.now).runs → (table_of costs.now).runs ≤ r }
    requires columns { first ≤ length slack.old }
    requires v_columns { length slack.old ≤ length v.now }
    requires from_columns { length from.old ≡ length slack.old }
    requires v_low { (j : ℕ) → at v.now j ≤ 2000000391 }
    requires fits { (j : ℕ) → j < length slack.old → u ≤ weight (table_of costs.now) r j + at v.now j }
    ensures { IsNearer (table_of costs.now) r first (length slack.old) size u v.now
        slack.old slack.new from.old from.new }
{
    for j in first..slack.len() {
        relax_one(weigh_apart(costs, r, j), u, v[j], size, j, slack, from);
    }
}

/// What a row costs behind a start, or an end behind a run.
fn weigh_apart(costs: &Costs, r: usize, j: usize) -> u32
    requires end { j < (table_of costs.now).runs → (table_of costs.now).runs ≤ r }
    ensures value { result ≡ weight (table_of costs.now) r j }
    ensures bound { result ≤ 2000000391 }
{
    if r < costs.runs() as usize {
        costs.start(r as u16) as u32 + count_over(r)
    } else {
        weigh_end(costs, r, j)
    }
}

/// Brings all columns as near as they are to the row of a run.
fn relax_run(
    costs: &Costs,
    r: u16,
    u: u32,
    v: &[u32],
    size: u32,
    slack: &mut [u32],
    from: &mut [u32],
)
    requires run { r < (table_of costs.now).runs }
    requires columns { (table_of costs.now).runs ≤ length slack.old }
    requires v_columns { length slack.old ≤ length v.now }
    requires from_columns { length from.old ≡ length slack.old }
    requires u_low { u ≤ 2000000391 }
    requires v_low { (j : ℕ) → at v.now j ≤ 2000000391 }
    requires near { (j : ℕ) → at slack.old j ≤ 2000000000 + at v.now j }
    requires fits { (j : ℕ) → j < length slack.old → u ≤ weight (table_of costs.now) r j + at v.now j }
    ensures { IsNearer (table_of costs.now) r 0 (length slack.old) size u v.now
        slack.old slack.new from.old from.new }
{
    relax_behind(costs, r, u, v, size, slack, from);
    relax_one(0, u, v[r as usize], size, r as usize, slack, from);
    relax_from(
        costs,
        r as usize,
        costs.runs() as usize,
        u,
        v,
        size,
        slack,
        from,
    );
}

/// Brings the columns as near as they are to a row that has come into the tree.
pub fn relax(
    costs: &Costs,
    r: usize,
    u: u32,
    v: &[u32],
    size: u32,
    slack: &mut [u32],
    from: &mut [u32],
)
    requires columns { (table_of costs.now).runs ≤ length slack.old }
    requires v_columns { length slack.old ≤ length v.now }
    requires from_columns { length from.old ≡ length slack.old }
    requires u_low { u ≤ 2000000391 }
    requires v_low { (j : ℕ) → at v.now j ≤ 2000000391 }
    requires near { (j : ℕ) → at slack.old j ≤ 2000000000 + at v.now j }
    requires fits { (j : ℕ) → j < length slack.old → u ≤ weight (table_of costs.now) r j + at v.now j }
    ensures { IsNearer (table_of costs.now) r 0 (length slack.old) size u v.now
        slack.old slack.new from.old from.new }
{
    if r < costs.runs() as usize {
        relax_run(costs, r as u16, u, v, size, slack, from);
    } else {
        relax_from(costs, r, 0, u, v, size, slack, from);
    }
}
