mod measured;

use crate::confirming::confirm;
use crate::costs::Costs;
use crate::cover::Cover;
use crate::least::least_cover;
use crate::matrix::Matrix;
use mt_base::Memory;
use std::alloc::Global;

/// Stands for a run that may not come before.
const NO: u16 = u16::MAX;

/// Costs, with what each run costs at a start, a row for each run of what it costs behind each run,
/// and a cover.
fn costs(
    alloc: Global,
    starts: u16,
    start: &[u16],
    after: &[u16],
    kept: &[Option<u16>],
) -> Result<Option<Costs>, Memory> {
    let start = Vec::from_slice(alloc, start)?;
    let after = Vec::from_slice(alloc, after)?;
    let kept = Vec::from_slice(alloc, kept)?;
    match Matrix::new(starts, start, after) {
        None => Ok(None),
        Some(matrix) => Ok(Costs::new(matrix, kept)),
    }
}

/// Whether the cover that costs least has a price and stands so, and is confirmed.
fn covers(
    alloc: Global,
    costs: Option<Costs>,
    price: u64,
    before: &[Option<u16>],
) -> Result<bool, Memory> {
    match costs {
        None => Ok(false),
        Some(costs) => {
            let cover = least_cover(alloc, &costs)?;
            Ok(cover.price == price && cover.before.as_slice() == before && confirm(&costs, &cover))
        }
    }
}

/// Parts with programs 5, 0 and 9 in equal temperament: the third begins while one channel is free,
/// and the first comes again on the other. To take the free channel that costs least at once would
/// give 13.
#[test]
fn an_earlier_choice_saves_a_later_message(rt: HostRuntime) {
    let alloc = rt.alloc();
    let start = [6, 5, 6, 6];
    let after = [NO, NO, NO, NO, NO, NO, NO, NO, 1, 1, NO, NO, 0, 1, NO, NO];
    let kept = [None, None, Some(0), Some(1)];
    let some = costs(alloc, 2, &start, &after, &kept).expect(&rt, "memory");
    let least = [None, None, Some(1), Some(0)];
    assert!(rt; covers(alloc, some, 12, &least).expect(&rt, "memory"));
}

#[test]
fn few_runs(rt: HostRuntime) {
    let alloc = rt.alloc();
    let none = costs(alloc, 0, &[], &[], &[]).expect(&rt, "memory");
    assert!(rt; covers(alloc, none, 0, &[]).expect(&rt, "memory"));
    let one = costs(alloc, 1, &[391], &[NO], &[None]).expect(&rt, "memory");
    assert!(rt; covers(alloc, one, 391, &[None]).expect(&rt, "memory"));
    let apart = costs(alloc, 3, &[1, 2, 4], &[NO; 9], &[None; 3]).expect(&rt, "memory");
    assert!(rt; covers(alloc, apart, 7, &[None; 3]).expect(&rt, "memory"));
    let dear = costs(alloc, 1, &[392], &[NO], &[None]).expect(&rt, "memory");
    assert!(rt; dear.is_none());
}

/// Each run costs the same behind another, and more at a start.
#[test]
fn one_cost_behind_runs(rt: HostRuntime) {
    let alloc = rt.alloc();
    let after = [NO, NO, NO, NO, NO, NO, NO, NO, 2, NO, NO, NO, 2, 2, NO, NO];
    let kept = [None, None, Some(0), Some(1)];
    let some = costs(alloc, 3, &[5; 4], &after, &kept).expect(&rt, "memory");
    let least = [None, None, Some(0), Some(1)];
    assert!(rt; covers(alloc, some, 14, &least).expect(&rt, "memory"));
}

#[test]
fn refuses_a_dearer_cover(rt: HostRuntime) {
    let alloc = rt.alloc();
    let after = [NO, NO, NO, NO, NO, NO, 4, 2, NO];
    let some = costs(alloc, 2, &[5, 8, 9], &after, &[None, None, Some(0)]);
    let some = some.expect(&rt, "memory").expect(&rt, "costs");
    assert!(rt; some.runs() == 3 && some.starts() == 2 && some.start(1) == 8);
    assert!(rt; some.after(0, 2) == Some(4) && some.after(0, 1).is_none());
    let cover = least_cover(alloc, &some).expect(&rt, "memory");
    assert_eq!(rt; cover.price, 15);
    let before = vec![in alloc; None, None, Some(0)].expect(&rt, "memory");
    let dearer = Cover {
        before,
        price: 17,
        u: cover.u,
        v: cover.v,
    };
    assert!(rt; !confirm(&some, &dearer));
}

/// What the k-th way to put a run or none before each run costs, or None where it is no cover.
fn price_of_way(costs: &Costs, k: u32) -> Option<u64> {
    let mut rest = k;
    let mut used = [false; 8];
    let mut starts = 0u16;
    let mut price = 0u64;
    for b in 0..costs.runs() {
        let ways = b as u32 + 1;
        let choice = rest % ways;
        rest /= ways;
        let cost = if choice == 0 {
            starts = starts.saturating_add(1);
            costs.start(b)
        } else {
            let a = (choice % 65536) as u16 - 1;
            if a >= costs.runs() || a as usize >= used.len() || used[a as usize] {
                return None;
            }
            used[a as usize] = true;
            costs.after(a, b)?
        };
        price = price.saturating_add(cost as u64);
    }
    if starts > costs.starts() {
        None
    } else {
        Some(price)
    }
}

/// Costs of six runs that look random. Each run may follow the one before the last.
fn random_costs(alloc: Global, seed: u64) -> Result<Option<Costs>, Memory> {
    let mut random = seed;
    let mut start = Vec::new(alloc);
    let mut after = Vec::new(alloc);
    for b in 0..6u16 {
        for a in 0..6u16 {
            random = random
                .wrapping_mul(6364136223846793005)
                .wrapping_add(1442695040888963407);
            let cost = ((random >> 33) % 392) as u16;
            if a + 2 == b || (a < b && cost % 4 != 0) {
                after.push(cost)?;
            } else {
                after.push(NO)?;
            }
        }
        start.push(((random >> 43) % 392) as u16)?;
    }
    let kept = [None, None, Some(0), Some(1), Some(2), Some(3)];
    costs(alloc, 2, start.as_slice(), after.as_slice(), &kept)
}

/// The solver's price is that of the cheapest of all covers, which are tried out one after the other.
#[test]
fn no_cover_is_cheaper(rt: HostRuntime) {
    let alloc = rt.alloc();
    for seed in 0..20u64 {
        let some = random_costs(alloc, seed)
            .expect(&rt, "memory")
            .expect(&rt, "costs");
        let mut least = u64::MAX;
        for k in 0..720u32 {
            if let Some(price) = price_of_way(&some, k) {
                if price < least {
                    least = price;
                }
            }
        }
        let cover = least_cover(alloc, &some).expect(&rt, "memory");
        assert_eq!(rt; cover.price, least);
        assert!(rt; confirm(&some, &cover));
    }
}
