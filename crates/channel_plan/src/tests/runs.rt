use super::sources::EQUAL;
use super::*;
use Said::{Off, On, Turn as Controller};

/// A pedal holds part 1, under part 2; then part 2 comes again.
const PEDAL: &[Turn] = &[
    (0, 0, Controller(0, 64, 127)),
    (0, 0, On(0, 69)),
    (480, 0, Off(0, 69)),
    (480, 0, On(1, 69)),
    (720, 0, Off(1, 69)),
    (960, 0, Controller(0, 64, 0)),
    (960, 0, On(1, 71)),
    (1440, 0, Off(1, 71)),
];

fn pedal_plan(alloc: Global) -> Result<Plan, PlanFault> {
    match table(alloc, EQUAL, true) {
        Some(table) => planned(alloc, table, BEND, ALL, PEDAL),
        None => Err(PlanFault::Memory),
    }
}

/// Whether the runs of the notes are these, and no other note has one.
fn are_runs(plan: &Plan, wanted: &[u32]) -> bool {
    let mut note = 0u32;
    for run in wanted {
        note = note.saturating_add(1);
        if plan.run_of(note) != Some(*run) {
            return false;
        }
    }
    plan.run_of(0).is_none() && plan.run_of(note.saturating_add(1)).is_none()
}

#[test]
fn runs_count_as_they_begin_and_are_recast(rt: HostRuntime) -> Result<(), Fail> {
    match pedal_plan(rt.alloc()) {
        Ok(mut plan) => {
            assert!(rt; are_runs(&plan, &[0, 1, 2]) && plan.run_count(0) == 3);
            assert!(rt; are_given(&plan, &[1, 2, 2]));
            plan.recast(0, &[1, 0, 0]);
            assert!(rt; are_given(&plan, &[2, 1, 1]) && are_runs(&plan, &[0, 1, 2]));
        }
        Err(_) => assert!(rt; false),
    }
    Ok(())
}
