// The reactor's volume, from the sludge mass and the settling tank's solids: where the two rooms meet.
ghost use Rattle.std.specs.Prelude.{◌≡◌, ◌*◌, ◌≤◌};
ghost use Rattle.rules.specs.ReactorSteps.{reactor_solids, reactor_volume};

use rounding::round_up;
use rules::{MixedSolids, Process, ReactorSolids, SludgeMass, Steps};

// E', the solids that the reactor, and nothing else, is sized with, g/m3
#[tactic(auto, unfolding(rules::specs::ReactorSteps::reactor_solids))]
pub fn reactor_solids(process: Process, solids: MixedSolids) -> ReactorSolids
    ensures value { result ≡ reactor_solids process solids }
    ensures least { solids ≤ result }
{
    let solids = solids.get();
    ReactorSolids::new(match process {
        Process::PreAnoxic | Process::Simultaneous | Process::Intermittent => solids,
        Process::StepFeed(Steps::Two) => 114 * solids / 100,
        Process::StepFeed(Steps::Three) => 120 * solids / 100,
    })
}

// Reactor volume, m3
#[tactic(auto, unfolding(rules::specs::ReactorSteps::reactor_volume))]
pub fn reactor_volume(mass: SludgeMass, solids: ReactorSolids) -> u64
    ensures { (result ≡ reactor_volume mass solids) × (result ≤ 1000 * mass) }
{
    round_up(1000 * mass.get(), solids.get())
}
