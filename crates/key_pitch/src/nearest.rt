ghost use Rattle.std.specs.Prelude.{◌≡◌, ◌≤◌, ◌≤ℤ◌, ◌^◌, ℤ, pos, neg_ℤ};
ghost use Rattle.std.specs.Int.{int_div_euclid};
ghost use Rattle.retune_model.specs.Table.{nearest_key, nearest_steps};

// The key nearest to a pitch, the higher one of two.
pub fn nearest_key(lo: i128) -> i128
    requires low { neg_ℤ (pos (2 ^ 90)) ≤ℤ lo }
    requires high { lo ≤ℤ pos (2 ^ 90) }
    ensures { result ≡ nearest_key lo }
{
    (lo + 1_600_000_000_000).div_euclid(3_200_000_000_000)
}

// The steps of a bend from the nearest key to a pitch, at a sensitivity of so many semitones.
pub fn nearest_steps(range: u8, lo: i128, key: u8) -> i32
    requires range_some { 1 ≤ range }
    requires range_high { range ≤ 96 }
    requires low { neg_ℤ (pos (2 ^ 90)) ≤ℤ lo }
    requires high { lo ≤ℤ pos (2 ^ 90) }
    requires key { nearest_key lo ≡ pos key }
    requires key_high { key ≤ 127 }
    ensures { result ≡ nearest_steps range lo }
{
    let half = 195_312_500 * range as i128;
    let above = lo - key as i128 * 3_200_000_000_000 + half;
    quotient(above, 2 * half) as i32
}

// The quotient of two numbers, rounded down.
fn quotient(number: i128, divisor: i128) -> i128
    requires some { pos 1 ≤ℤ divisor }
    ensures { (y d : ℤ) → number ≡ y → divisor ≡ d → result ≡ int_div_euclid y d }
{
    number.div_euclid(divisor)
}
