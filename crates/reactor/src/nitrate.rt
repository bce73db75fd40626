// The nitrate that the tank must and can remove.
ghost use Rattle.std.specs.Prelude.{◌≡◌, ◌+◌, ◌-◌, ◌*◌, ◌≤◌, ◌<◌};
ghost use Rattle.rules.specs.AgeNitrate.{nitrified, denitrified, table_capacity, risen_capacity, capacity_uptake, uptake_capacity, capacity, removes, removed_by_dose, covered};
ghost use Rattle.rules.specs.Limits.{most_capacity, most_dose};

use rules::{
    Accepted, Concentrations, CorrectedAge, DoseRemoval, GridFraction, Nitrogen, OwnRemoval,
    Process, Temperature, Way,
};

// W, nitrogen to nitrify, mg/m3.
#[tactic(auto, unfolding(rules::specs::AgeNitrate::nitrified))]
pub(crate) fn nitrified(accepted: &Accepted) -> Nitrogen
    ensures { result ≡ nitrified accepted.now.concentrations.nitrogen accepted.now.concentrations.bod }
{
    let Concentrations { nitrogen, bod, .. } = accepted.concentrations;
    Nitrogen::new(nitrogen.saturating_sub(2_000).saturating_sub(4 * bod / 100))
}

// D, nitrate to denitrify, mg/m3.
#[tactic(auto, unfolding(rules::specs::AgeNitrate::denitrified))]
pub(crate) fn denitrified(nitrified: Nitrogen, target: u64) -> Nitrogen
    ensures { result ≡ denitrified nitrified target }
{
    Nitrogen::new(nitrified.get().saturating_sub(target))
}

// Table 3, linear between its figures.
#[tactic(auto, unfolding(rules::specs::AgeNitrate::table_capacity))]
fn table_capacity(fraction: GridFraction) -> u64
    ensures { (result ≡ table_capacity fraction) × (result ≤ 150) }
{
    let fraction = fraction.get();
    match fraction {
        ..=300 => 110 + 20 * (fraction - 200) / 100,
        ..=400 => 130 + 10 * (fraction - 300) / 100,
        _ => 140 + 10 * (fraction - 400) / 100,
    }
}

// The rise of Table 3's figure above 12 degrees, a hundredth for each degree.
#[tactic(auto, unfolding(rules::specs::AgeNitrate::risen_capacity))]
fn risen_capacity(table: u64, temperature: Temperature) -> u64
    requires { table ≤ 150 }
    ensures { (result ≡ risen_capacity table temperature) × (result ≤ most_capacity) }
{
    let temperature = temperature.get();
    if temperature <= 12 {
        table
    } else {
        table * (100 + (temperature - 12)) / 100
    }
}

// o, specific oxygen uptake for the capacity, g/kg.
#[tactic(auto, unfolding(rules::specs::AgeNitrate::capacity_uptake))]
pub fn capacity_uptake(corrected: CorrectedAge) -> u64
    ensures { (result ≡ capacity_uptake corrected) × (result ≤ 1_443) }
{
    let corrected = corrected.get();
    560 + 15000 * corrected / (100000 + 17 * corrected)
}

// The capacity of a process that denitrifies by its oxygen uptake.
#[tactic(auto, unfolding(rules::specs::AgeNitrate::uptake_capacity))]
fn uptake_capacity(fraction: GridFraction, corrected: CorrectedAge) -> u64
    ensures { (result ≡ uptake_capacity fraction corrected) × (result ≤ most_capacity) }
{
    75 * fraction.get() * capacity_uptake(corrected) / 290_000
}

// K, denitrification capacity, g nitrate nitrogen per kg BOD. Document 01 names the form: a match over the process.
#[tactic(auto, unfolding(rules::specs::AgeNitrate::capacity))]
fn capacity(
    process: Process,
    fraction: GridFraction,
    temperature: Temperature,
    corrected: CorrectedAge,
) -> u64
    ensures { (result ≡ capacity process fraction temperature corrected) × (result ≤ most_capacity) }
{
    match process {
        Process::PreAnoxic | Process::StepFeed(_) => risen_capacity(
            table_capacity(fraction),
            temperature,
        ),
        Process::Simultaneous | Process::Intermittent => uptake_capacity(fraction, corrected),
    }
}

// K × C, or what stands for it in the way by COD: a process that denitrifies by its oxygen uptake takes the COD's.
#[tactic(auto, unfolding(rules::specs::AgeNitrate::removes, rules::specs::AgeNitrate::removes_by_bod, rules::specs::AgeNitrate::removes_by_cod))]
pub(crate) fn removes(
    accepted: &Accepted,
    fraction: GridFraction,
    temperature: Temperature,
    corrected: CorrectedAge,
) -> OwnRemoval
    ensures { result ≡ removes accepted.now.plant.way accepted.now.plant.process accepted.now.concentrations fraction temperature corrected }
{
    let process = accepted.plant.process;
    match (accepted.plant.way, process) {
        (Way::Cod, Process::Simultaneous | Process::Intermittent) => {
            cod::removed_by_oxygen(accepted, fraction, corrected)
        }
        _ => {
            let capacity = capacity(process, fraction, temperature, corrected);
            OwnRemoval::new(capacity * accepted.concentrations.bod)
        }
    }
}

// The nitrate that external carbon removes, mg/m3.
#[tactic(auto, unfolding(rules::specs::AgeNitrate::removed_by_dose))]
pub(crate) fn removed_by_dose(dose: u64) -> DoseRemoval
    requires { dose ≤ most_dose }
    ensures { result ≡ removed_by_dose dose }
{
    DoseRemoval::new(dose / 5)
}

// Whether the tank's own carbon and the dose cover the nitrate to denitrify.
#[tactic(auto, unfolding(rules::specs::AgeNitrate::covered))]
pub(crate) fn covered(removes: OwnRemoval, by_dose: DoseRemoval, denitrified: Nitrogen) -> bool
    ensures { result ≡ covered removes by_dose denitrified }
{
    removes.get() + 1000 * by_dose.get() >= 1000 * denitrified.get()
}
