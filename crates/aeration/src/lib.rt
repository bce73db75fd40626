// Aeration and recirculation: the oxygen that a reactor needs, and the flow that a pre-anoxic one returns. The corrected age is that
// at the aeration temperature, and no part of the data, beside which it travels.
#![tactic(auto)]

ghost use Rattle.std.specs.Prelude.{◌≡◌, ◌-◌, ◌≤◌};
ghost use Rattle.rules.specs.AerationSteps.{aeration_uptake, carbon_oxygen, carbon_oxygen_in, nitrification_oxygen, denitrified_by_bod, saved_oxygen, hourly_oxygen, oxygen_transfer, paused_transfer, transfer_of, recirculation, aeration_of};

use rounding::round_up;
use rules::{
    Accepted, Aeration, CarbonOxygen, CorrectedAge, DoseRemoval, GridFraction, HourlyOxygen,
    NitrificationOxygen, Nitrogen, Process, Reactor, Temperature, Way,
};

// Specific oxygen uptake for aeration, g/kg.
#[tactic(auto, unfolding(rules::specs::AerationSteps::aeration_uptake))]
fn aeration_uptake(corrected: CorrectedAge) -> u64
    ensures { (result ≡ aeration_uptake corrected) × (result ≤ 1_443) }
{
    let corrected = corrected.get();
    560 + round_up(15000 * corrected, 100000 + 17 * corrected)
}

// Oxygen for carbon, g/d.
#[tactic(auto, unfolding(rules::specs::AerationSteps::carbon_oxygen))]
fn carbon_oxygen(accepted: &Accepted, corrected: CorrectedAge) -> CarbonOxygen
    ensures { result ≡ carbon_oxygen accepted.now.plant.flow accepted.now.concentrations.bod (aeration_uptake corrected) }
{
    let flow = u64::from(accepted.plant.flow);
    let uptake = aeration_uptake(corrected);
    CarbonOxygen::new(round_up(flow * accepted.concentrations.bod * uptake, 1_000_000))
}

// Oxygen for carbon by the plant's way, g/d, from U(Ta). It is like the step of sludge in the match on the way alone.
#[tactic(auto, unfolding(rules::specs::AerationSteps::carbon_oxygen_in))]
fn carbon_oxygen_in(accepted: &Accepted, corrected: CorrectedAge) -> CarbonOxygen
    ensures { result ≡ carbon_oxygen_in accepted.now.plant.way accepted.now.plant.flow accepted.now.concentrations corrected }
{
    match accepted.plant.way {
        Way::Bod => carbon_oxygen(accepted, corrected),
        Way::Cod => cod::carbon_oxygen(accepted, corrected),
    }
}

// Oxygen for nitrification, g/d.
#[tactic(auto, unfolding(rules::specs::AerationSteps::nitrification_oxygen))]
fn nitrification_oxygen(accepted: &Accepted, nitrified: Nitrogen) -> NitrificationOxygen
    ensures { result ≡ nitrification_oxygen accepted.now.plant.flow nitrified }
{
    let flow = u64::from(accepted.plant.flow);
    NitrificationOxygen::new(round_up(43 * flow * nitrified.get(), 10_000))
}

// The nitrate that is left to the tank's BOD, mg/m3.
#[tactic(auto, unfolding(rules::specs::AerationSteps::denitrified_by_bod))]
fn denitrified_by_bod(denitrified: Nitrogen, by_dose: DoseRemoval) -> Nitrogen
    ensures { result ≡ denitrified_by_bod denitrified by_dose }
{
    Nitrogen::new(denitrified.get().saturating_sub(by_dose.get()))
}

// Oxygen saved by the nitrate that the tank's BOD denitrifies, g/d.
#[tactic(auto, unfolding(rules::specs::AerationSteps::saved_oxygen))]
fn saved_oxygen(accepted: &Accepted, denitrified: Nitrogen) -> u64
    ensures { result ≡ saved_oxygen accepted.now.plant.flow denitrified }
{
    29 * u64::from(accepted.plant.flow) * denitrified.get() / 10_000
}

// Hourly oxygen, g/h: the larger of the carbon peak and the nitrogen peak.
#[tactic(auto, unfolding(rules::specs::AerationSteps::hourly_oxygen))]
fn hourly_oxygen(
    accepted: &Accepted,
    net: CarbonOxygen,
    nitrification: NitrificationOxygen,
) -> HourlyOxygen
    ensures { result ≡ hourly_oxygen net nitrification accepted.now.plant.carbon_peak accepted.now.plant.nitrogen_peak }
{
    let carbon_peak = u64::from(accepted.plant.carbon_peak);
    let nitrogen_peak = u64::from(accepted.plant.nitrogen_peak);
    let net = net.get();
    let nitrification = nitrification.get();
    let at_carbon_peak = round_up(carbon_peak * net + 100 * nitrification, 2400);
    let at_nitrogen_peak = round_up(100 * net + nitrogen_peak * nitrification, 2400);
    HourlyOxygen::new(at_carbon_peak.max(at_nitrogen_peak))
}

// Oxygen transfer, g/h.
#[tactic(auto, unfolding(rules::specs::AerationSteps::oxygen_transfer))]
fn oxygen_transfer(accepted: &Accepted, hourly: HourlyOxygen) -> u64
    ensures { result ≡ oxygen_transfer accepted.now.plant.oxygen_saturation hourly }
{
    let saturation = u64::from(accepted.plant.oxygen_saturation);
    round_up(saturation * hourly.get(), saturation - 2_000)
}

// The same with blowers that stand still for a part of each cycle.
#[tactic(auto, unfolding(rules::specs::AerationSteps::paused_transfer))]
fn paused_transfer(accepted: &Accepted, fraction: GridFraction, hourly: HourlyOxygen) -> u64
    ensures { result ≡ paused_transfer accepted.now.plant.oxygen_saturation fraction hourly }
{
    let saturation = u64::from(accepted.plant.oxygen_saturation);
    round_up(
        1000 * saturation * hourly.get(),
        (saturation - 2_000) * (1000 - fraction.get()),
    )
}

// Oxygen transfer of a process: the intermittent one pauses.
#[tactic(auto, unfolding(rules::specs::AerationSteps::transfer_of))]
fn transfer(accepted: &Accepted, fraction: GridFraction, hourly: HourlyOxygen) -> u64
    ensures { result ≡ transfer_of accepted.now.plant.process accepted.now.plant.oxygen_saturation fraction hourly }
{
    match accepted.plant.process {
        Process::Intermittent => paused_transfer(accepted, fraction, hourly),
        Process::PreAnoxic | Process::Simultaneous | Process::StepFeed(_) => {
            oxygen_transfer(accepted, hourly)
        }
    }
}

// What a reactor returns beyond its own flow, thousandths: pre-anoxic only.
#[tactic(auto, unfolding(rules::specs::AerationSteps::recirculation))]
fn recirculated(accepted: &Accepted, nitrified: Nitrogen) -> u64
    ensures { result ≡ recirculation accepted.now.plant.process nitrified accepted.now.plant.nitrate_target }
{
    let target = u64::from(accepted.plant.nitrate_target);
    match accepted.plant.process {
        Process::PreAnoxic => round_up(1000 * nitrified.get(), target).saturating_sub(1000),
        Process::Simultaneous | Process::Intermittent | Process::StepFeed(_) => 0,
    }
}

// Carbon's oxygen less what denitrification saves, g/d, held at 0. By BOD nothing is cut off where the nitrate is covered.
fn net_carbon(accepted: &Accepted, carbon: CarbonOxygen, denitrified: Nitrogen) -> CarbonOxygen
    ensures { result ≡ carbon - saved_oxygen accepted.now.plant.flow denitrified }
{
    CarbonOxygen::new(
        carbon
            .get()
            .saturating_sub(saved_oxygen(accepted, denitrified)),
    )
}

// Recirculation, hourly oxygen and transfer of a reactor.
#[tactic(auto, unfolding(rules::specs::AerationSteps::aeration_by, rules::specs::AerationSteps::aeration_saving, rules::specs::AerationSteps::aeration_of))]
pub fn aeration(accepted: &Accepted, reactor: &Reactor) -> Aeration
    ensures { result ≡ aeration_of accepted.now.plant accepted.now.concentrations reactor.now }
{
    let temperature = Temperature::new(u64::from(accepted.plant.aeration_temperature));
    let corrected = reactor::corrected_age(reactor.age.get(), temperature);
    let carbon = carbon_oxygen_in(accepted, corrected);
    let own = denitrified_by_bod(reactor.denitrified, reactor.removed_by_dose);
    let net = net_carbon(accepted, carbon, own);
    let nitrification = nitrification_oxygen(accepted, reactor.nitrified);
    let oxygen = hourly_oxygen(accepted, net, nitrification);
    Aeration {
        recirculation: recirculated(accepted, reactor.nitrified),
        oxygen: oxygen.get(),
        transfer: transfer(accepted, reactor.fraction, oxygen),
    }
}
