// What depends on the denitrification fraction alone: sludge age, nitrate and sludge.
#![tactic(auto)]

mod age;
mod basis;
mod nitrate;
mod once;
mod sludge;
mod terms;
mod volume;

pub use age::{
    aerobic_age, corrected_age, decay, safety_factor, sludge_age, sludge_age_at_fraction,
};
pub use basis::Basis;
pub use nitrate::capacity_uptake;
use rules::{
    DecayFactor, DoseRemoval, MOST_TERMS, Nitrogen, PhosphorusSludge, SludgeAge, Temperature,
};
pub use sludge::biomass_decay;
pub use volume::{reactor_solids, reactor_volume};

// What the design or a term of the consent asks of a reactor, whatever the fraction.
#[derive(Clone, Copy)]
pub struct Season {
    // degrees
    pub temperature: Temperature,
    // nitrate target, mg/m3
    pub target: u64,
    // a at this temperature, thousandths of a day
    pub aerobic_age: SludgeAge,
    // F at this temperature, millionths
    pub decay: DecayFactor,
}

// What the inflow asks of a reactor, whatever the fraction.
#[derive(Clone, Copy)]
pub struct Inflow {
    // W, nitrogen to nitrify, mg/m3
    pub nitrified: Nitrogen,
    // D, nitrate to denitrify, mg/m3
    pub denitrified: Nitrogen,
    // nitrate that the dose removes, mg/m3
    pub removed_by_dose: DoseRemoval,
    // g/d
    pub phosphorus_sludge: PhosphorusSludge,
}

// What does not depend on the fraction: the inflow's figures, the design, and the terms of the consent, as many as the count
// says; past it stands `Season::none`.
#[derive(Clone, Copy)]
pub struct Seasons {
    pub inflow: Inflow,
    pub design: Season,
    pub count: u32,
    pub terms: [Season; MOST_TERMS],
}
