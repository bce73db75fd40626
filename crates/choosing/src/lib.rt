// Choosing: the least permitted design of the whole grid, or that there is none. What depends on the fraction alone is
// computed once for each fraction, what depends on the settling tank alone once for each tank.
#![tactic(auto)]

mod keys;
mod tanks;

ghost use Rattle.std.specs.Prelude.{◌≡◌};
ghost use Rattle.rules.specs.Choosing.{grid, ChosenAmong, Chosen};
ghost use Rattle.rules.specs.TwoColumns.{TwoColumns};
ghost use Rattle.choosing.specs.Runs.{kept_mass};

pub use keys::{Key, lesser};
use reactor::Basis;
use rules::{
    Accepted, Answer, GridCandidate, GridFraction, LEAST_FRACTION, MOST_FRACTION, Plant, Readings,
    Refusal, SludgeMass,
};
pub use tanks::{MOST_TANKS, Tanks, per_fraction};

// The sludge mass at a fraction, if it keeps the rules of the fraction.
#[tactic(auto, unfolding(crate::specs::Runs::kept_mass))]
pub fn kept_mass(basis: &Basis, fraction: GridFraction) -> Option<SludgeMass>
    ensures { result ≡ kept_mass basis.now.data.plant basis.now.data.concentrations fraction }
{
    let reactor = basis.reactor(fraction);
    basis.fraction_verdict(&reactor).ok()?;
    Some(reactor.mass)
}

// The design chosen for accepted data.
pub fn choose_accepted(accepted: &Accepted) -> Answer
    ensures { ChosenAmong accepted.now.plant accepted.now.concentrations (grid accepted.now.plant) result }
{
    let basis = Basis::new(*accepted);
    let mut table = [None; MOST_TANKS];
    let tanks = Tanks::new(&basis, &mut table);
    let Some(key) = tanks.fractions(LEAST_FRACTION, MOST_FRACTION + 1) else {
        return Err(Refusal::NoDesign);
    };
    let candidate = GridCandidate::new(key.candidate());
    let reactor = basis.reactor(candidate.fraction());
    examining::judge_tank(accepted, candidate, &reactor)
}

// What choosing answers for any plant data and lab readings.
pub fn choose(plant: Plant, readings: Readings) -> Answer
    ensures chosen { Chosen plant readings result }
    ensures columns { TwoColumns plant readings result }
{
    let accepted = accepting::accept(plant, readings)?;
    choose_accepted(&accepted)
}
