//! A cover in which each run costs least where it stands, but that each start counts some more.
ghost use Rattle.std.specs.Prelude.{◌≡◌, ◌≤◌, ◌<◌, length, IfOk, IfSome};
ghost use Rattle.least_replay.specs.Cover.{IsLeast};
ghost use Rattle.least_replay.specs.CostView.{table_of, IsConfirmed};

use crate::confirming::confirm;
use crate::costs::Costs;
use crate::cover::Cover;
use mt_base::Memory;
use std::alloc::Global;

/// Stands for a run that may not come before.
const NO: u16 = u16::MAX;

/// The least of a row and one cost more.
fn least_in(row: &[u16], other: u16) -> u16 {
    let mut least = other;
    for cost in row {
        if *cost < least {
            least = *cost;
        }
    }
    least
}

/// The last run behind which a run costs so much, and which comes before none yet.
fn last_free(row: &[u16], taken: &[bool], cost: u16) -> Option<u16>
    requires few { length row.now ≤ 2000 }
    requires whole { length row.now ≤ length taken.now }
    ensures { IfSome result (λ a. a < length row.now) }
{
    for i in 0..row.len() {
        let a = row.len() - 1 - i;
        if row[a] == cost {
            if !taken[a] {
                return Some(a as u16);
            }
        }
    }
    None
}

/// How much dearer the last run is at a start than where it costs least.
fn extra_of(costs: &Costs) -> u16 {
    let runs = costs.runs();
    if runs == 0 {
        return 0;
    }
    let start = costs.start(runs - 1);
    start.saturating_sub(least_in(costs.row(runs - 1), start))
}

/// The last run that starts a channel.
fn last_start(before: &[Option<u16>]) -> usize {
    let mut last = 0;
    for b in 0..before.len() {
        if before[b].is_none() {
            last = b;
        }
    }
    last
}

/// Raises the numbers of the runs up to one.
fn raise_rows(u: &mut [i64], last: usize, extra: u16) {
    for b in 0..u.len() {
        if b <= last {
            u[b] = u[b].saturating_add(extra as i64);
        }
    }
}

/// Raises the numbers of the columns that a row may stand behind.
fn raise_columns(v: &mut [i64], row: &[u16], extra: u16)
    requires { length row.now ≤ length v.old }
    ensures { length v.new ≡ length v.old }
{
    for a in 0..row.len() {
        if row[a] != NO {
            v[a] = extra as i64;
        }
    }
}

/// The numbers of the columns: what a start counts more, for each run that may come before the last
/// one that starts a channel, since all those do come before one up to it.
fn columns(alloc: Global, costs: &Costs, last: usize, extra: u16) -> Result<Vec<i64>, Memory> {
    let runs = costs.runs() as usize;
    let mut v = vec![in alloc; 0i64; runs + costs.starts() as usize]?;
    if last < runs {
        raise_columns(&mut v, costs.row(last as u16), extra);
    }
    Ok(v)
}

/// Puts each run where it costs least, a start counted as cheaper by what the last run has there:
/// behind the last run that is free, or else at a start. None where that can't be for a run. Where
/// all runs cost the same behind others, and the same at a start, this gives a cover, since a run
/// that one may follow stays so for each later one. What is answered is not yet known to be a cover.
fn put_cheaply(alloc: Global, costs: &Costs) -> Result<Option<Cover>, Memory> {
    let extra = extra_of(costs);
    let mut taken = vec![in alloc; false; costs.runs() as usize]?;
    let mut before = Vec::new(alloc);
    let mut u = Vec::new(alloc);
    let mut price = 0u64;
    for b in 0..costs.runs() {
        let row = costs.row(b);
        let start = costs.start(b);
        let cost = least_in(row, start.saturating_sub(extra));
        let place = last_free(row, &taken, cost);
        match place {
            Some(a) => {
                taken[a as usize] = true;
                price = price.saturating_add(cost as u64);
            }
            None if start as u32 == cost as u32 + extra as u32 => {
                price = price.saturating_add(start as u64);
            }
            None => return Ok(None),
        }
        before.push(place)?;
        u.push(cost as i64)?;
    }
    let last = last_start(before.as_slice());
    raise_rows(&mut u, last, extra);
    let v = columns(alloc, costs, last, extra)?;
    Ok(Some(Cover {
        before,
        price,
        u,
        v,
    }))
}

/// A cover of runs that are put cheaply, where that one costs least and its certificate shows it.
/// None says nothing of other covers.
pub fn cheap_cover(alloc: Global, costs: &Costs) -> Result<Option<Cover>, Memory>
    ensures confirmed { IfOk result (λ found. IfSome found (IsConfirmed costs.now)) }
    ensures least { IfOk result
        (λ found. IfSome found (λ cover. IsLeast (table_of costs.now) cover.price)) }
{
    if let Some(cover) = put_cheaply(alloc, costs)? {
        if confirm(costs, &cover) {
            return Ok(Some(cover));
        }
    }
    Ok(None)
}
