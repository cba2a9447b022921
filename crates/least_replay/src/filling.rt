ghost use Rattle.std.specs.Prelude.{◌≡◌, ◌≤◌, ◌<◌, ◌++◌, ℕ, length, map, get_or, IfOk, OnOk};
ghost use Rattle.std.specs.List.{AllByRecursion};
ghost use Rattle.least_replay.specs.Assignments.{chains_from};
ghost use Rattle.least_replay.specs.Filled.{start_by, behind_by, row_by, IsLowBehind, AreFilled};
ghost use Rattle.least_replay.specs.Found.{seen_at};
ghost use Rattle.least_replay.specs.FoundView.{seen, all_seen};
ghost use Rattle.least_replay.specs.View.{matrix_table};

use crate::found::Run;
use crate::matrix::Matrix;
use mt_base::Memory;
use receiver::ChannelState;
use replay::bring_length;
use std::alloc::Global;

/// Stands for a run that may not come before.
const NO: u16 = u16::MAX;

/// What a run costs at a start.
fn cost_at_start(run: &Run) -> u16
    ensures cost { result ≡ start_by (seen run.now) }
    ensures low { result ≤ 391 }
{
    bring_length(&ChannelState::new(), &run.needs)
}

/// What a run costs right behind another, by what it costs at a start.
fn cost_behind(before: &Run, run: &Run, start: u16) -> u16
    ensures cost { start ≡ start_by (seen run.now)
        → result ≡ behind_by (seen before.now) (seen run.now) }
    ensures low { start ≡ start_by (seen run.now) → start ≤ 391
        → IsLowBehind (seen run.now) (seen before.now) }
{
    if before.last >= run.first {
        NO
    } else if before.resets_last == run.resets_first {
        bring_length(&before.left, &run.needs)
    } else {
        start
    }
}

/// Puts what a run costs behind each run.
fn push_row(after: &mut Vec<u16>, runs: &[Run], run: &Run, start: u16) -> Result<(), Memory>
    requires start { start ≡ start_by (seen run.now) }
    requires low { start ≤ 391 }
    ensures row { OnOk result (after.new.items ≡ after.old.items
        ++ row_by (all_seen runs.now) (seen run.now)) }
    ensures low { OnOk result (AllByRecursion (IsLowBehind (seen run.now)) (all_seen runs.now)) }
{
    for before in runs {
        after.push(cost_behind(before, run, start))?;
    }
    Ok(())
}

/// What at most 2,000 runs cost, each at a start and behind each other.
pub(crate) fn fill(alloc: Global, starts: u16, runs: &[Run]) -> Result<Matrix, Memory>
    requires { length runs.now ≤ 2000 }
    ensures runs { IfOk result (λ m. (matrix_table m).runs ≡ length runs.now) }
    ensures starts { IfOk result (λ m. (matrix_table m).starts ≡ starts) }
    ensures filled { IfOk result (λ m. AreFilled (all_seen runs.now) m.start.items m.after.items) }
{
    let mut start = Vec::new(alloc);
    let mut after = Vec::new(alloc);
    for run in runs {
        let cost = cost_at_start(run);
        start.push(cost)?;
        push_row(&mut after, runs, run, cost)?;
    }
    match Matrix::new(starts, start, after) {
        Some(matrix) => Ok(matrix),
        None => unreachable!(),
    }
}

/// The run right before each on its channel, of at most 2,000.
pub(crate) fn chains(alloc: Global, runs: &[Run]) -> Result<Vec<Option<u16>>, Memory>
    requires { length runs.now ≤ 2000 }
    ensures { IfOk result (λ before. before.items
        ≡ chains_from (λ b. (seen_at (all_seen runs.now) b).channel) 0 (length runs.now)) }
{
    let mut last = [None; 16];
    let mut before = Vec::new(alloc);
    for run in runs {
        let channel = run.channel.number() as usize;
        let number = before.len() as u16;
        before.push(last[channel])?;
        last[channel] = Some(number);
    }
    Ok(before)
}
