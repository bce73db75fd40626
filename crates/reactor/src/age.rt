// The sludge age, from the load, the temperature and the denitrification fraction.
ghost use Rattle.std.specs.Prelude.{◌≡◌, ◌*◌, ◌≤◌};
ghost use Rattle.rules.specs.Rounding.{down};
ghost use Rattle.rules.specs.AgeNitrate.{safety_factor, per_degree, growth, decay, aerobic_age, sludge_age, corrected_age};
ghost use Rattle.rules.specs.Ranges.{Between};
ghost use Rattle.rules.specs.Limits.{least_temperature, most_fraction};

use rounding::round_up;
use rules::{CorrectedAge, DecayFactor, GridFraction, SafetyFactor, SludgeAge, Temperature};

// 1,000,000 multiplied by multiplier / divisor once for each degree, down at each.
#[tactic(auto, using(crate::proofs::AgeLimits::per_degree_none, crate::proofs::AgeLimits::per_degree_more, crate::proofs::AgeLimits::per_degree_fits))]
fn per_degree(multiplier: u64, divisor: u64, degrees: u64) -> u64
    requires { (multiplier ≤ 2_000) × (1_000 ≤ divisor) × (degrees ≤ 15) }
    ensures { result ≡ per_degree multiplier divisor degrees }
{
    if degrees == 0 {
        return 1_000_000;
    }
    per_degree(multiplier, divisor, degrees - 1) * multiplier / divisor
}

// G, growth: 1103 / 1000 for each degree below 15, the reverse for each above.
fn growth(temperature: Temperature) -> u64
    ensures { (result ≡ growth temperature) × Between 1 2_942_000 result × (least_temperature ≤ temperature → result ≤ 1_633_000) }
{
    let temperature = temperature.get();
    if temperature <= 15 {
        per_degree(1103, 1000, 15 - temperature)
    } else {
        per_degree(1000, 1103, temperature - 15)
    }
}

// F, decay: 1072 / 1000 for each degree above 15, the reverse for each below. Growth and decay are two steps of document 01 over
// one recursion, the form that it names; a function of both would take the figures and the direction, and be no plainer.
pub fn decay(temperature: Temperature) -> DecayFactor
    ensures { result ≡ decay temperature }
{
    let temperature = temperature.get();
    if temperature <= 15 {
        DecayFactor::new(per_degree(1000, 1072, 15 - temperature))
    } else {
        DecayFactor::new(per_degree(1072, 1000, temperature - 15))
    }
}

// SF, safety factor, hundredths.
#[tactic(auto, unfolding(rules::specs::AgeNitrate::safety_factor))]
pub fn safety_factor(load: u64) -> SafetyFactor
    requires { load ≤ 100_000 }
    ensures { result ≡ safety_factor load }
{
    SafetyFactor::new(match load {
        0..=1_200 => 180,
        6_000.. => 145,
        _ => 180 - 35 * (load - 1_200) / 4_800,
    })
}

// a, aerobic sludge age, thousandths of a day: at most 10,000 at a plant's temperatures.
#[tactic(auto, unfolding(rules::specs::AgeNitrate::aerobic_age))]
pub fn aerobic_age(factor: SafetyFactor, temperature: Temperature) -> SludgeAge
    ensures { (result ≡ aerobic_age factor temperature) × (least_temperature ≤ temperature → result ≤ 10_000) }
{
    SludgeAge::new(round_up(factor.get() * 34 * growth(temperature), 1_000_000))
}

// t, sludge age, thousandths of a day, at any fraction up to the grid's largest: it may also be below the grid's.
#[tactic(auto, unfolding(rules::specs::AgeNitrate::sludge_age))]
pub fn sludge_age_at_fraction(aerobic: SludgeAge, fraction: u64) -> SludgeAge
    requires { (aerobic ≤ 10_000) × (fraction ≤ most_fraction) }
    ensures { result ≡ sludge_age aerobic fraction }
{
    SludgeAge::new(round_up(1000 * aerobic.get(), 1000 - fraction))
}

// t, sludge age, thousandths of a day, at a fraction of the grid.
pub fn sludge_age(aerobic: SludgeAge, fraction: GridFraction) -> SludgeAge
    requires { aerobic ≤ 10_000 }
    ensures { result ≡ sludge_age aerobic fraction }
{
    sludge_age_at_fraction(aerobic, fraction.get())
}

// U, sludge age corrected by the decay at a temperature, thousandths of a day: at most 1.42 times the age.
pub(crate) fn corrected_by(age: u64, decay: DecayFactor) -> CorrectedAge
    requires { age ≤ 30_000 }
    ensures value { result ≡ down (age * decay) 1_000_000 }
    ensures most { 100 * result ≤ 142 * age }
{
    CorrectedAge::new(age * decay.get() / 1_000_000)
}

// U at a temperature.
#[tactic(auto, unfolding(rules::specs::AgeNitrate::corrected_age))]
pub fn corrected_age(age: u64, temperature: Temperature) -> CorrectedAge
    requires { age ≤ 30_000 }
    ensures value { result ≡ corrected_age age temperature }
    ensures most { 100 * result ≤ 142 * age }
{
    corrected_by(age, decay(temperature))
}

#[cfg(test)]
mod tests {
    use super::*;

    // 8.213 d of aerobic age are four fifths and a half of the whole, rounded up.
    #[test]
    fn of_the_grid(rt: HostRuntime) {
        let aerobic = SludgeAge::new(8_213);
        let least = sludge_age(aerobic, GridFraction::new(200));
        let most = sludge_age(aerobic, GridFraction::new(500));
        assert_eq!(rt; least.get(), 10_267);
        assert_eq!(rt; most.get(), 16_426);
    }
}
