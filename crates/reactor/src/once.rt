// What the inflow asks of a reactor whatever its fraction, reckoned once for a plant.
ghost use Rattle.std.specs.Prelude.{◌≡◌};
ghost use Rattle.reactor.specs.Seasons.{inflow_of};

use crate::Inflow;
use crate::nitrate::{denitrified, nitrified, removed_by_dose};
use crate::sludge::phosphorus_sludge;
use rules::Accepted;

impl Inflow {
    // W, D, what the dose removes, and the phosphorus sludge.
    #[tactic(auto, unfolding(crate::specs::Seasons::inflow_of))]
    pub(crate) fn new(accepted: &Accepted) -> Inflow
        ensures { result ≡ inflow_of accepted.now.plant accepted.now.concentrations }
    {
        let plant = &accepted.plant;
        let nitrified = nitrified(accepted);
        Inflow {
            nitrified,
            denitrified: denitrified(nitrified, u64::from(plant.nitrate_target)),
            removed_by_dose: removed_by_dose(u64::from(plant.dose)),
            phosphorus_sludge: phosphorus_sludge(accepted),
        }
    }
}
