// 64 small counts side by side in three bit planes.

#![tactic(auto)]

ghost use Rattle.std.specs.Prelude.{◌≡◌, ℕ, ◌+◌, ◌*◌, ◌%◌, ◌<◌, eqb};
ghost use Rattle.bits.specs.Bits.{digit, tally};
ghost use Rattle.planes.specs.Counts.{value};

// Count i is written with bit i of each plane; bit 0 is the most significant.
#[derive(Clone, Copy)]
pub struct Planes {
    pub one: u64,
    pub two: u64,
    pub four: u64,
}

// The counts after an addition, and the places where a count passed 7: there it begins anew.
#[derive(Clone, Copy)]
pub struct Sum {
    pub planes: Planes,
    pub over: u64,
}

// The last bit of v at each of 64 places.
pub fn spread(v: usize) -> u64
    ensures { (i : ℕ) → i < 64 → digit 64 result i ≡ eqb (v % 2) 1 }
{
    if v % 2 == 1 { u64::MAX } else { 0 }
}

// Every count is v.
pub fn all(v: usize) -> Planes
    requires { v < 8 }
    ensures { (i : ℕ) → i < 64 → value result i ≡ v }
{
    Planes {
        one: spread(v),
        two: spread(v / 2),
        four: spread(v / 4),
    }
}

// Bit i of x is added to count i, for all 64 at once: three half adders.
pub fn add(p: Planes, x: u64) -> Sum
    ensures { (i : ℕ) → i < 64 → value result.planes i + 8 * tally (digit 64 result.over i) ≡ value p i + tally (digit 64 x i) }
{
    let carry = p.one & x;
    let next = p.two & carry;
    Sum {
        planes: Planes {
            one: p.one ^ x,
            two: p.two ^ carry,
            four: p.four ^ next,
        },
        over: p.four & next,
    }
}
