// The sludge that carbon and phosphorus make, and the mass of it that the tank holds.
ghost use Rattle.std.specs.Prelude.{◌≡◌, ◌≤◌};
ghost use Rattle.rules.specs.ReactorSteps.{biomass_decay, carbon_sludge, carbon_sludge_in, sludge_per_phosphorus, phosphorus_sludge, sludge_mass};

use rounding::round_up;
use rules::{
    Accepted, CarbonSludge, Concentrations, CorrectedAge, DailySludge, PhosphorusSludge,
    Precipitant, SludgeAge, SludgeMass, Way,
};

// e, decay of biomass per kg BOD.
#[tactic(auto, unfolding(rules::specs::ReactorSteps::biomass_decay))]
pub fn biomass_decay(corrected: CorrectedAge) -> u64
    ensures { (result ≡ biomass_decay corrected) × (result ≤ 600) }
{
    let corrected = corrected.get();
    10200 * corrected / (100000 + 17 * corrected)
}

// Carbon sludge, g/d.
#[tactic(auto, unfolding(rules::specs::ReactorSteps::carbon_sludge))]
fn carbon_sludge(accepted: &Accepted, corrected: CorrectedAge) -> CarbonSludge
    ensures { result ≡ carbon_sludge accepted.now.plant.flow accepted.now.concentrations.bod accepted.now.concentrations.solids corrected }
{
    let flow = u64::from(accepted.plant.flow);
    let Concentrations { bod, solids, .. } = accepted.concentrations;
    CarbonSludge::new(round_up(
        flow * ((750 - biomass_decay(corrected)) * bod + 600 * solids),
        1_000_000,
    ))
}

// Carbon sludge by the plant's way, g/d. It is like the step of oxygen in the match on the way alone.
#[tactic(auto, unfolding(rules::specs::ReactorSteps::carbon_sludge_in))]
pub(crate) fn carbon_sludge_in(accepted: &Accepted, corrected: CorrectedAge) -> CarbonSludge
    ensures { result ≡ carbon_sludge_in accepted.now.plant.way accepted.now.plant.flow accepted.now.concentrations accepted.now.plant.dose corrected }
{
    match accepted.plant.way {
        Way::Bod => carbon_sludge(accepted, corrected),
        Way::Cod => cod::carbon_sludge(accepted, corrected),
    }
}

// k, sludge per phosphorus, tenths.
#[tactic(auto, unfolding(rules::specs::ReactorSteps::sludge_per_phosphorus))]
fn sludge_per_phosphorus(precipitant: Precipitant) -> u64
    ensures { (result ≡ sludge_per_phosphorus precipitant) × (result ≤ 68) }
{
    match precipitant {
        Precipitant::Iron => 68,
        Precipitant::Aluminium => 53,
    }
}

// Phosphorus sludge, g/d.
#[tactic(auto, unfolding(rules::specs::ReactorSteps::phosphorus_sludge))]
pub(crate) fn phosphorus_sludge(accepted: &Accepted) -> PhosphorusSludge
    ensures { result ≡ phosphorus_sludge accepted.now.plant.flow (sludge_per_phosphorus accepted.now.plant.precipitant) accepted.now.concentrations.phosphorus accepted.now.plant.phosphorus_target accepted.now.concentrations.bod }
{
    let plant = &accepted.plant;
    let Concentrations {
        phosphorus,
        bod,
        ..
    } = accepted.concentrations;
    let precipitated = phosphorus
        .saturating_sub(u64::from(plant.phosphorus_target))
        .saturating_sub(bod / 100);
    let k = sludge_per_phosphorus(plant.precipitant);
    PhosphorusSludge::new(round_up(u64::from(plant.flow) * k * precipitated, 10_000))
}

// M, mass of sludge, kg.
#[tactic(auto, unfolding(rules::specs::ReactorSteps::sludge_mass))]
pub(crate) fn sludge_mass(age: SludgeAge, sludge: DailySludge) -> SludgeMass
    ensures { result ≡ sludge_mass age sludge }
{
    SludgeMass::new(round_up(age.get() * sludge.get(), 1_000_000))
}
