use super::*;
use Said::On;

/// Each key has a bend of its own.
const WIDER: &[u8] = b"wider\n1\n101.0\n";

/// The plan of two parts of which so many keys sound at once, and of a note on channel 10.
fn plan_of(alloc: Global, first: u8, second: u8, drums: bool) -> Result<Plan, PlanFault> {
    let mut turns: Vec<Turn> = Vec::new(alloc);
    for (part, count) in [(0u8, first), (1u8, second)] {
        for key in 0..count {
            turns
                .push((0, 0, On(part, 69u8.saturating_add(key).min(127))))
                .map_err(|_| PlanFault::Memory)?;
        }
    }
    if drums {
        turns
            .push((0, 0, On(9, 36)))
            .map_err(|_| PlanFault::Memory)?;
    }
    match table(alloc, WIDER, true) {
        Some(table) => planned(alloc, table, MPE, Layout::Mpe, turns.as_slice()),
        None => Err(PlanFault::Memory),
    }
}

/// What is refused: the need and the allowed number; none where there is a plan.
fn refusal(res: &Result<Plan, PlanFault>) -> Option<(u32, u32)> {
    match res {
        Err(PlanFault::TooManyChannels(fault)) => Some((fault.need, fault.allowed)),
        _ => None,
    }
}

/// The needs of two parts, whether there are drums, and what is refused.
const TABLE: [(u8, u8, bool, Option<(u32, u32)>); 12] = [
    (15, 0, false, None),
    (16, 0, false, Some((16, 15))),
    (8, 0, true, None),
    (9, 0, true, Some((9, 8))),
    (9, 5, false, None),
    (10, 5, false, Some((10, 9))),
    (5, 10, false, Some((10, 9))),
    (9, 5, true, Some((9, 8))),
    (8, 5, true, None),
    (8, 6, true, Some((6, 5))),
    (7, 7, false, None),
    (8, 8, false, Some((8, 6))),
];

#[test]
fn zones_have_as_many_members_as_there_may_be(rt: HostRuntime) -> Result<(), Fail> {
    for (first, second, drums, wanted) in TABLE {
        let res = plan_of(rt.alloc(), first, second, drums);
        assert!(rt;
            refusal(&res) == wanted && (res.is_ok() == wanted.is_none()),
            "{first} {second}"
        );
    }
    Ok(())
}

#[test]
fn members_are_taken_from_the_master_outward(rt: HostRuntime) -> Result<(), Fail> {
    let wanted = [2u8, 3, 4, 5, 6, 7, 8, 9, 10, 15, 14, 13, 12, 11];
    match plan_of(rt.alloc(), 9, 5, false) {
        Ok(plan) => assert!(rt; are_given(&plan, &wanted)),
        Err(_) => assert!(rt; false),
    }
    Ok(())
}

/// Whether a zone has this part, from 1, with its place and its need.
fn is_zone(plan: &Plan, place: usize, part: u8, upper: bool, need: u32) -> bool {
    match plan.zone(0, place) {
        Some(zone) => {
            zone.part.number().saturating_add(1) == part
                && zone.upper == upper
                && zone.need == need
                && plan.zone_pairs(0, place).len() == need as usize
        }
        None => false,
    }
}

#[test]
fn the_part_that_needs_more_has_the_lower_zone(rt: HostRuntime) -> Result<(), Fail> {
    match plan_of(rt.alloc(), 5, 9, false) {
        Ok(plan) => {
            assert!(rt; is_zone(&plan, 0, 2, false, 9) && is_zone(&plan, 1, 1, true, 5));
            assert!(rt; plan.zone(0, 2).is_none() && plan.zone_pairs(0, 2).is_empty());
        }
        Err(_) => assert!(rt; false),
    }
    Ok(())
}

#[test]
fn notes_keep_their_own_channels_on_live(rt: HostRuntime) -> Result<(), Fail> {
    let turns = [(0, 0, On(2, 60)), (0, 0, On(9, 36)), (0, 0, On(11, 60))];
    let found = match table(rt.alloc(), WIDER, true) {
        Some(table) => planned(rt.alloc(), table, LIVE, Layout::Own, &turns),
        None => Err(PlanFault::Memory),
    };
    match found {
        Ok(plan) => {
            assert!(rt; are_given(&plan, &[3, 12]) && plan.need(0) == 0);
            assert!(rt; plan.ports() == [0].as_slice() && plan.run_count(0) == 2);
            assert!(rt; plan.run_of(1) == Some(0) && plan.run_of(2) == Some(1));
        }
        Err(_) => assert!(rt; false),
    }
    Ok(())
}
