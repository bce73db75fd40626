// The kinds of a plant by their codes. Each says its own codes: what is alike in the six is no more than `match`, and the gate takes
// no `impl` that a macro of our own writes.
ghost use Rattle.std.specs.Prelude.{◌≤◌, OkIff};
ghost use Rattle.rules.specs.Kinds.{last_process, process_of, last_precipitant, precipitant_of, last_tank_flow, tank_flow_of};
ghost use Rattle.rules.specs.Kinds.{last_removal, removal_of, last_primary_settling, primary_settling_of, last_way, way_of};

use crate::{Precipitant, PrimarySettling, Process, Removal, Steps, TankFlow, Way};

// A code that stands for no kind.
#[derive(Clone, Copy, Debug, PartialEq, Eq)]
pub struct UnknownKind;

impl TryFrom<u32> for Process {
    type Error = UnknownKind;

    ghost try_from_gives = { λ code r. OkIff r (code ≤ last_process) (process_of code) };

    fn try_from(code: u32) -> Result<Process, UnknownKind> {
        match code {
            0 => Ok(Process::PreAnoxic),
            1 => Ok(Process::Simultaneous),
            2 => Ok(Process::Intermittent),
            3 => Ok(Process::StepFeed(Steps::Two)),
            4 => Ok(Process::StepFeed(Steps::Three)),
            _ => Err(UnknownKind),
        }
    }
}

impl TryFrom<u32> for Precipitant {
    type Error = UnknownKind;

    ghost try_from_gives = { λ code r. OkIff r (code ≤ last_precipitant) (precipitant_of code) };

    fn try_from(code: u32) -> Result<Precipitant, UnknownKind> {
        match code {
            0 => Ok(Precipitant::Iron),
            1 => Ok(Precipitant::Aluminium),
            _ => Err(UnknownKind),
        }
    }
}

impl TryFrom<u32> for TankFlow {
    type Error = UnknownKind;

    ghost try_from_gives = { λ code r. OkIff r (code ≤ last_tank_flow) (tank_flow_of code) };

    fn try_from(code: u32) -> Result<TankFlow, UnknownKind> {
        match code {
            0 => Ok(TankFlow::Horizontal),
            1 => Ok(TankFlow::Vertical),
            _ => Err(UnknownKind),
        }
    }
}

impl TryFrom<u32> for Removal {
    type Error = UnknownKind;

    ghost try_from_gives = { λ code r. OkIff r (code ≤ last_removal) (removal_of code) };

    fn try_from(code: u32) -> Result<Removal, UnknownKind> {
        match code {
            0 => Ok(Removal::Scraper),
            1 => Ok(Removal::Suction),
            2 => Ok(Removal::Hopper),
            _ => Err(UnknownKind),
        }
    }
}

impl TryFrom<u32> for PrimarySettling {
    type Error = UnknownKind;

    ghost try_from_gives = { λ code r. OkIff r (code ≤ last_primary_settling) (primary_settling_of code) };

    fn try_from(code: u32) -> Result<PrimarySettling, UnknownKind> {
        match code {
            0 => Ok(PrimarySettling::None),
            1 => Ok(PrimarySettling::Short),
            2 => Ok(PrimarySettling::Long),
            _ => Err(UnknownKind),
        }
    }
}

impl TryFrom<u32> for Way {
    type Error = UnknownKind;

    ghost try_from_gives = { λ code r. OkIff r (code ≤ last_way) (way_of code) };

    fn try_from(code: u32) -> Result<Way, UnknownKind> {
        match code {
            0 => Ok(Way::Bod),
            1 => Ok(Way::Cod),
            _ => Err(UnknownKind),
        }
    }
}
