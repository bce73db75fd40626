// Data that are accepted.
ghost use Rattle.rules.specs.Ranges.{PlantRanges, ConcentrationRanges};

use crate::{Concentrations, Plant};

// Plant data and the results of lab readings, all in their ranges.
#[derive(Clone, Copy)]
pub struct Accepted {
    pub plant: Plant,
    pub concentrations: Concentrations,
    pub ghost plant_ranges: { PlantRanges plant },
    pub ghost concentration_ranges: { ConcentrationRanges concentrations },
}
