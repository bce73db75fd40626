// Examining a candidate: the refusal of the data, the first rule that the candidate breaks, or its complete sheet.
#![tactic(auto)]

ghost use Rattle.std.specs.Prelude.{◌≡◌, T};
ghost use Rattle.rules.specs.AgeNitrate.{largest_return_ratio, on_grid};
ghost use Rattle.rules.specs.Limits.{most_ratio};
ghost use Rattle.rules.specs.Ranges.{Between};
ghost use Rattle.rules.specs.Examining.{sheet_from, judge, examine};
ghost use Rattle.rules.specs.ReactorSteps.{reactor_of};
ghost use Rattle.rules.specs.SettlingSteps.{settling_of};
ghost use Rattle.examining.specs.Stages.{StagesOf, judge_tank};
ghost use Rattle.rules.specs.TwoColumns.{TwoColumns};

use reactor::Basis;
use rules::{
    Accepted, Aeration, Answer, Candidate, GridCandidate, Plant, Reactor, Readings, Refusal,
    Settling, Sheet, TankFlow,
};
use settling::Thickened;

// What a candidate on the grid is judged by.
#[derive(Clone, Copy)]
pub struct Stages {
    pub reactor: Reactor,
    pub settling: Settling,
    // the first of the rules 7, 15, 16 and 8 to 10 that is broken, if any
    pub verdict: Result<(), Refusal>,
}

// The largest return ratio of the grid.
#[tactic(auto, unfolding(rules::specs::AgeNitrate::largest_return_ratio))]
pub fn largest_return_ratio(tank: TankFlow) -> u32
    ensures { (result ≡ largest_return_ratio tank) × Between 75 most_ratio result }
{
    match tank {
        TankFlow::Horizontal => 75,
        TankFlow::Vertical => rules::MOST_RATIO,
    }
}

// The candidate is on the grid.
pub fn on_grid(tank: TankFlow, candidate: Candidate) -> bool
    ensures { result ≡ on_grid tank candidate }
{
    let most = largest_return_ratio(tank);
    rounding::within(
        rules::LEAST_FRACTION,
        rules::MOST_FRACTION,
        candidate.fraction,
    ) && rounding::within(rules::LEAST_RATIO, most, candidate.return_ratio)
        && rounding::within(rules::LEAST_TIME, rules::MOST_TIME, candidate.thickening)
}

// The settling tank of a candidate on the grid.
fn settling_of(accepted: &Accepted, candidate: GridCandidate) -> Settling
    ensures { result ≡ settling_of accepted.now.plant candidate.return_ratio candidate.thickening }
{
    Thickened::new(accepted, candidate.thickening()).tank(candidate.return_ratio())
}

// The reactor and the settling tank of a candidate on the grid, and the verdict on its rules.
pub fn stages_of(basis: &Basis, candidate: GridCandidate) -> Stages
    ensures { StagesOf basis.now.data.plant basis.now.data.concentrations candidate result }
{
    let reactor = basis.reactor(candidate.fraction());
    let settling = settling_of(&basis.data, candidate);
    let fraction = basis.fraction_verdict(&reactor);
    let tank = settling::tank_verdict(&basis.data.plant, &settling);
    Stages {
        reactor,
        settling,
        verdict: fraction.and(tank),
    }
}

// The sheet that a candidate's stages make.
fn sheet_from(
    plant: &Plant,
    candidate: GridCandidate,
    reactor: &Reactor,
    settling: &Settling,
    aeration: Aeration,
) -> Sheet
    ensures { result ≡ sheet_from plant.now candidate reactor.now settling.now aeration }
{
    let solids = reactor::reactor_solids(plant.process, settling.solids);
    let volume = reactor::reactor_volume(reactor.mass, solids);
    let settling_volume = settling.volume.get();
    Sheet {
        fraction: candidate.fraction().get(),
        return_ratio: candidate.return_ratio().get(),
        thickening: candidate.thickening().get(),
        age: reactor.age.get(),
        sludge: reactor.sludge.get(),
        mass: reactor.mass.get(),
        solids: settling.solids.get(),
        reactor: volume,
        surface: settling.surface.get(),
        depth: settling.depth.get(),
        settling: settling_volume,
        total: volume + settling_volume,
        recirculation: aeration.recirculation,
        oxygen: aeration.oxygen,
        transfer: aeration.transfer,
    }
}

// A candidate on the grid whose fraction keeps its rules: the tank's refusal, else its sheet.
pub fn judge_tank(accepted: &Accepted, candidate: GridCandidate, reactor: &Reactor) -> Answer
    requires { reactor.now ≡ reactor_of accepted.now.plant accepted.now.concentrations candidate.fraction }
    ensures { result ≡ judge_tank accepted.now.plant accepted.now.concentrations candidate }
{
    let settling = settling_of(accepted, candidate);
    settling::tank_verdict(&accepted.plant, &settling)?;
    let aeration = aeration::aeration(accepted, reactor);
    Ok(sheet_from(&accepted.plant, candidate, reactor, &settling, aeration))
}

// A candidate on the grid, from what its fraction rests on: the refusal of the first rule that it breaks, else its sheet. The tank is
// computed only where the fraction keeps its rules. Not inlined, so that its figures are not on the stack while the basis is made.
#[inline(never)]
fn judge_on_grid(basis: &Basis, candidate: GridCandidate) -> Answer
    requires { T (on_grid basis.now.data.plant.tank candidate) }
    ensures { result ≡ judge basis.now.data.plant basis.now.data.concentrations candidate }
{
    let reactor = basis.reactor(candidate.fraction());
    basis.fraction_verdict(&reactor)?;
    judge_tank(&basis.data, candidate, &reactor)
}

// A candidate of accepted data: the refusal of the first rule that it breaks, else its sheet.
pub fn judge(accepted: &Accepted, candidate: Candidate) -> Answer
    ensures { result ≡ judge accepted.now.plant accepted.now.concentrations candidate }
{
    let on_grid = on_grid(accepted.plant.tank, candidate);
    verdicts::rule(on_grid, Refusal::OffGrid)?;
    judge_on_grid(&Basis::new(*accepted), GridCandidate::new(candidate))
}

// What examining answers for any plant data, lab readings and candidate; a sheet keeps the two columns.
pub fn examine(plant: Plant, readings: Readings, candidate: Candidate) -> Answer
    ensures value { result ≡ examine plant readings candidate }
    ensures columns { TwoColumns plant readings result }
{
    let accepted = accepting::accept(plant, readings)?;
    judge(&accepted, candidate)
}
