//! The cover that costs least.
ghost use Rattle.std.specs.Prelude.{◌≡◌, ◌++◌, map, pos, IfOk};
ghost use Rattle.least_replay.specs.Columns.{before_of};
ghost use Rattle.least_replay.specs.Cover.{IsLeast};
ghost use Rattle.least_replay.specs.CostView.{table_of, IsConfirmed};

use crate::confirming::price_of;
use crate::costs::Costs;
use crate::cover::Cover;
use crate::greedy::cheap_cover;
use crate::solver::solve;
use mt_base::Memory;
use std::alloc::Global;

/// The run before that a column stands for.
fn predecessor(runs: u16, j: usize) -> Option<u16>
    ensures { result ≡ before_of runs j }
{
    if j < runs as usize {
        Some(j as u16)
    } else {
        None
    }
}

/// The run before each, by its column.
fn predecessors(alloc: Global, runs: u16, col_of: &[usize]) -> Result<Vec<Option<u16>>, Memory>
    ensures { IfOk result (λ before. before.items ≡ map (before_of runs) col_of.now) }
{
    let mut before = Vec::new(alloc);
    for j in col_of {
        before.push(predecessor(runs, *j))?;
    }
    Ok(before)
}

/// Puts numbers at the end of a list.
fn append_signed(out: &mut Vec<i64>, xs: &[u32]) -> Result<(), Memory>
    ensures { IfOk result (λ done. out.new.items ≡ out.old.items ++ map pos xs.now) }
{
    for x in xs {
        out.push(*x as i64)?;
    }
    Ok(())
}

/// A cover that costs least, with its certificate, for any costs.
fn solved_cover(alloc: Global, costs: &Costs) -> Result<Cover, Memory>
    ensures confirmed { IfOk result (λ cover. IsConfirmed costs.now cover) }
    ensures least { IfOk result (λ cover. IsLeast (table_of costs.now) cover.price) }
{
    let runs = costs.runs();
    let solution = solve(alloc, costs)?;
    let before = predecessors(alloc, runs, &solution.col_of[..runs as usize])?;
    let mut u = Vec::new(alloc);
    append_signed(&mut u, &solution.u[..runs as usize])?;
    let mut v = Vec::new(alloc);
    append_signed(&mut v, solution.v.as_slice())?;
    let price = price_of(&costs.matrix, before.as_slice());
    Ok(Cover {
        before,
        price,
        u,
        v,
    })
}

/// A cover that costs least, with its certificate, which `confirm` takes. The only fault is want of
/// memory.
pub fn least_cover(alloc: Global, costs: &Costs) -> Result<Cover, Memory>
    ensures confirmed { IfOk result (λ cover. IsConfirmed costs.now cover) }
    ensures least { IfOk result (λ cover. IsLeast (table_of costs.now) cover.price) }
{
    match cheap_cover(alloc, costs)? {
        Some(cover) => Ok(cover),
        None => solved_cover(alloc, costs),
    }
}
