// The design and the terms of the consent: what each asks, reckoned once for a plant, and whether a reactor gives it.
ghost use Rattle.std.specs.Prelude.{◌≡◌, ◌*◌, ◌≤◌, ◌<◌, length};
ghost use Rattle.rules.specs.Limits.{most_fraction, most_terms};
ghost use Rattle.rules.specs.AgeNitrate.{safety_factor};
ghost use Rattle.rules.specs.TermSteps.{aerobic_share};
ghost use Rattle.reactor.specs.Seasons.{no_season, season_with, season_at, SeasonsAt, season_nitrifies, season_fraction, season_removes, season_covered, season_explained};

use crate::age::{aerobic_age, corrected_by, decay, safety_factor};
use crate::nitrate::{covered, denitrified, removes};
use crate::{Inflow, Season, Seasons};
use rounding::round_up;
use rules::{
    Accepted, DecayFactor, GridFraction, LEAST_FRACTION, OwnRemoval, Reactor, SafetyFactor,
    SludgeAge, Temperature, TermExplained,
};
use std::array;

// up(1000a / t): what nitrification needs of the sludge age, thousandths.
#[tactic(auto, unfolding(rules::specs::TermSteps::aerobic_share))]
fn aerobic_share(aerobic: SludgeAge, age: SludgeAge) -> u64
    ensures { result ≡ aerobic_share aerobic age }
{
    round_up(1000 * aerobic.get(), age.get())
}

// What entry i of the consent asks, with the plant's SF; `Season::none` past the count. Each term counted stands in the list.
#[tactic(auto, unfolding(crate::specs::Seasons::season_at, crate::specs::Seasons::season_of))]
fn term_season(accepted: &Accepted, factor: SafetyFactor, i: usize) -> Season
    requires { (factor ≡ safety_factor accepted.now.plant.load) × (i < most_terms) }
    ensures { (result ≡ season_at accepted.now.plant i) × (i < accepted.now.plant.consent.count → i < length accepted.now.plant.consent.terms) }
{
    let consent = &accepted.plant.consent;
    if consent.count as usize <= i {
        return Season::none();
    }
    let term = consent.terms[i];
    Season::new(
        factor,
        Temperature::new(u64::from(term.temperature)),
        u64::from(term.nitrate_target),
    )
}

// One plant has reactors of many fractions, so a reactor travels beside the data.
impl Season {
    // Past the consent's count: the least figures, which nothing reads.
    fn none() -> Season
        ensures { result ≡ no_season }
    {
        Season {
            temperature: Temperature::new(4),
            target: 0,
            aerobic_age: SludgeAge::new(1),
            decay: DecayFactor::new(0),
        }
    }

    // A temperature and a target with the plant's SF.
    #[tactic(auto, unfolding(crate::specs::Seasons::season_with))]
    fn new(factor: SafetyFactor, temperature: Temperature, target: u64) -> Season
        ensures { result ≡ season_with factor temperature target }
    {
        Season {
            temperature,
            target,
            aerobic_age: aerobic_age(factor, temperature),
            decay: decay(temperature),
        }
    }

    // Nitrification is kept at the sludge age t.
    #[tactic(auto, unfolding(crate::specs::Seasons::season_nitrifies))]
    pub(crate) fn nitrifies(&self, age: SludgeAge) -> bool
        ensures { result ≡ season_nitrifies age self.now }
    {
        aerobic_share(self.aerobic_age, age) <= 1000
    }

    // The fraction left for denitrification: the smaller of f and 1000 − up(1000a / t).
    #[tactic(auto, unfolding(crate::specs::Seasons::season_fraction))]
    fn fraction(&self, fraction: GridFraction, age: SludgeAge) -> u64
        ensures { (result ≡ season_fraction fraction age self.now) × (result ≤ most_fraction) }
    {
        let left = 1000_u64.saturating_sub(aerobic_share(self.aerobic_age, age));
        fraction.get().min(left)
    }

    // K × C or what stands for it, with U of the design's t at the season's temperature: 0 at a fraction under 200.
    #[tactic(auto, unfolding(crate::specs::Seasons::season_removes, rules::specs::TermSteps::removes_from200))]
    fn removes(&self, accepted: &Accepted, reactor: &Reactor) -> OwnRemoval
        ensures { result ≡ season_removes accepted.now.plant accepted.now.concentrations reactor.now self.now }
    {
        let fraction = self.fraction(reactor.fraction, reactor.age);
        if fraction < u64::from(LEAST_FRACTION) {
            return OwnRemoval::new(0);
        }
        let corrected = corrected_by(reactor.age.get(), self.decay);
        removes(
            accepted,
            GridFraction::new(fraction),
            self.temperature,
            corrected,
        )
    }

    // The nitrate is covered.
    #[tactic(auto, unfolding(crate::specs::Seasons::season_covered))]
    pub(crate) fn covers(&self, accepted: &Accepted, reactor: &Reactor) -> bool
        ensures { result ≡ season_covered accepted.now.plant accepted.now.concentrations reactor.now self.now }
    {
        let removes = self.removes(accepted, reactor);
        let denitrified = denitrified(reactor.nitrified, self.target);
        covered(removes, reactor.removed_by_dose, denitrified)
    }

    // The figures that explain a reactor.
    #[tactic(auto, unfolding(crate::specs::Seasons::season_explained, rules::specs::AgeNitrate::removed_by_bod, rules::specs::AgeNitrate::removable))]
    pub(crate) fn explained(&self, accepted: &Accepted, reactor: &Reactor) -> TermExplained
        ensures { result ≡ season_explained accepted.now.plant accepted.now.concentrations reactor.now self.now }
    {
        let removed_by_bod = self.removes(accepted, reactor).get() / 1000;
        TermExplained {
            aerobic_share: aerobic_share(self.aerobic_age, reactor.age),
            fraction: self.fraction(reactor.fraction, reactor.age),
            denitrified: denitrified(reactor.nitrified, self.target).get(),
            removed_by_bod,
            removable: removed_by_bod + reactor.removed_by_dose.get(),
        }
    }
}

impl Seasons {
    // Of accepted data.
    pub(crate) fn new(accepted: &Accepted) -> Seasons
        ensures { SeasonsAt accepted.now.plant accepted.now.concentrations result }
    {
        let plant = &accepted.plant;
        let factor = safety_factor(u64::from(plant.load));
        Seasons {
            inflow: Inflow::new(accepted),
            design: Season::new(
                factor,
                Temperature::new(u64::from(plant.design_temperature)),
                u64::from(plant.nitrate_target),
            ),
            count: plant.consent.count,
            terms: array::from_fn(|i| term_season(accepted, factor, i)),
        }
    }
}
