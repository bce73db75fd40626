// A thickening time with its bottom sludge, and the tanks that have it.
#![tactic(auto)]

ghost use Rattle.std.specs.Prelude.{◌≡◌, ◌*◌, ◌≤◌};
ghost use Rattle.rules.specs.SettlingSteps.{thickening_root, bottom_sludge, settling_of};

use crate::{
    diluted_volume, mixed_solids, return_sludge, settling_depth, settling_surface, settling_volume,
    surface_overflow_rate, thickening_root,
};
use rules::{Accepted, BottomSludge, GridRatio, GridTime, Settling, SludgeIndex};

// Accepted data with a thickening time and its bottom sludge: one figure, whatever the return ratio.
#[derive(Clone, Copy)]
pub struct Thickened<'a> {
    pub accepted: &'a Accepted,
    // h
    pub time: GridTime,
    // B
    pub bottom: BottomSludge,
    pub ghost value: { bottom ≡ bottom_sludge (thickening_root time) accepted.now.plant.sludge_volume_index },
    // B · I, from the longest time's root
    pub ghost product: { bottom * accepted.now.plant.sludge_volume_index ≤ 1_357_200 },
}

impl<'a> Thickened<'a> {
    #[tactic(auto, using(crate::proofs::Limits::bottom_index, crate::proofs::Limits::bottom_limits), unfolding(rules::specs::SettlingSteps::bottom_sludge))]
    pub fn new(accepted: &'a Accepted, time: GridTime) -> Thickened<'a>
        ensures { (result.accepted.now ≡ accepted.now) × (result.time ≡ time) }
    {
        let index = u64::from(accepted.plant.sludge_volume_index);
        let bottom = BottomSludge::new(100 * thickening_root(time).get() / index);
        Thickened {
            accepted,
            time,
            bottom,
        }
    }

    // The figures of the settling tank with this return ratio.
    pub fn tank(&self, ratio: GridRatio) -> Settling
        ensures { result ≡ settling_of self.now.accepted.now.plant ratio self.now.time }
    {
        let plant = &self.accepted.plant;
        let returned = return_sludge(plant.removal, self.bottom);
        let solids = mixed_solids(returned, ratio);
        let index = SludgeIndex::new(u64::from(plant.sludge_volume_index));
        let sludge_volume = diluted_volume(solids, index);
        let rate = surface_overflow_rate(plant.tank, sludge_volume);
        let surface = settling_surface(u64::from(plant.wet_weather_flow), rate);
        let depth = settling_depth(rate, ratio, sludge_volume, solids, self.time, self.bottom);
        Settling {
            solids,
            sludge_volume,
            surface,
            depth,
            volume: settling_volume(surface, depth),
        }
    }
}
