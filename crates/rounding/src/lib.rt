// Arithmetic that several steps share: a quotient rounded up, and a range.
#![tactic(auto)]

ghost use Rattle.std.specs.Prelude.{◌≡◌, ◌+◌, ◌^◌, ◌≤◌, ◌<◌};
ghost use Rattle.rules.specs.Rounding.{up};
ghost use Rattle.rules.specs.PlantData.{within};

// a / d rounded up, for any divisor: the one place in the code where it is done. With the library's `div_ceil`, which takes quotient and
// remainder, a choice takes a tenth longer.
pub fn round_up(a: u64, d: u64) -> u64
    requires { (0 < d) × (a + d ≤ 2 ^ 64) }
    ensures { result ≡ up a d }
{
    (a + (d - 1)) / d
}

// n lies in the range least..most.
pub fn within(least: u32, most: u32, n: u32) -> bool
    ensures { result ≡ within least most n }
{
    (least..=most).contains(&n)
}
