// Sludge and oxygen from COD, by the appendix of A 131E as docs/cod-way.md condenses it: one balance, whose equations are rounded
// up or down as the chain asks that it stands in. The corrected age is that of the design, a term or aeration, and no part of the data,
// beside which it travels.
#![tactic(auto)]

ghost use Rattle.std.specs.Prelude.{Bool, true, false, ◌≡◌, ◌-◌, ◌*◌, ◌≤◌, ◌<◌};
ghost use Rattle.rules.specs.CodBalance.{rounded, inert_of_solids, inert_soluble, degradable_cod, dosed_cod, sludge_as_cod, inorganic_solids, carbon_sludge_by_cod, oxygen_by_cod, carbon_oxygen_by_cod, removed_by_oxygen};
ghost use Rattle.rules.specs.Limits.{most_dose};

use rounding::round_up;
use rules::{Accepted, CarbonOxygen, CarbonSludge, CorrectedAge, GridFraction, OwnRemoval};

// Which way every equation of a chain is rounded.
trait Rounding {
    ghost upward: { Bool };

    fn rounded(dividend: u64, divisor: u64) -> u64
        requires { (dividend ≤ 1_000_000_000_000_000) × (0 < divisor) × (divisor ≤ 1_000_000_000_000_000) }
        ensures { result ≡ rounded upward dividend divisor };
}

struct Up;

impl Rounding for Up {
    ghost upward = { true };

    #[tactic(auto, unfolding(rules::specs::CodBalance::rounded))]
    fn rounded(dividend: u64, divisor: u64) -> u64 {
        round_up(dividend, divisor)
    }
}

struct Down;

impl Rounding for Down {
    ghost upward = { false };

    #[tactic(auto, unfolding(rules::specs::CodBalance::rounded))]
    fn rounded(dividend: u64, divisor: u64) -> u64 {
        dividend / divisor
    }
}

// Inert particulate COD of the solids, mg/m3: A7, then A4.
#[tactic(auto, using(crate::proofs::Limits::particulate_most, crate::proofs::Limits::inert_most), unfolding(rules::specs::CodBalance::inert_of_solids, rules::specs::CodBalance::particulate_cod, rules::specs::CodBalance::inert_particulate))]
fn inert_of_solids<R: Rounding>(solids: u64) -> u64
    requires { solids ≤ 2_000_000 }
    ensures { (result ≡ inert_of_solids R.upward solids) × (result ≤ 710_500) }
{
    let particulate = R::rounded(1015 * solids, 1000);
    R::rounded(35 * particulate, 100)
}

// Inert soluble COD, mg/m3: A3.
#[tactic(auto, using(crate::proofs::Limits::soluble_most), unfolding(rules::specs::CodBalance::inert_soluble))]
fn inert_soluble<R: Rounding>(cod: u64) -> u64
    requires { cod ≤ 4_400_000 }
    ensures { (result ≡ inert_soluble R.upward cod) × (result ≤ 220_000) }
{
    R::rounded(5 * cod, 100)
}

// Degradable COD, mg/m3, at least 0: A5.
#[tactic(auto, unfolding(rules::specs::CodBalance::degradable_cod))]
fn degradable(cod: u64, soluble: u64, inert: u64) -> u64
    ensures { (result ≡ degradable_cod cod soluble inert) × (result ≤ cod) }
{
    cod.saturating_sub(soluble).saturating_sub(inert)
}

// External carbon that adds biomass, mg/m3: none up to 10 mg/l.
#[tactic(auto, unfolding(rules::specs::CodBalance::dosed_cod))]
fn dosed(dose: u64) -> u64
    requires { dose ≤ most_dose }
    ensures { (result ≡ dosed_cod dose) × (result ≤ most_dose) }
{
    if dose <= 10_000 { 0 } else { dose }
}

// Sludge as COD, mg/m3: A11 and A13, then A9.
#[tactic(auto, using(crate::proofs::Limits::biomass_most, crate::proofs::Limits::decayed_product, crate::proofs::Limits::decayed_most), unfolding(rules::specs::CodBalance::sludge_as_cod, rules::specs::CodBalance::biomass_formed, rules::specs::CodBalance::inert_of_biomass))]
fn sludge_as_cod<R: Rounding>(inert: u64, degradable: u64, corrected: CorrectedAge) -> u64
    requires { (inert ≤ 710_500) × (degradable ≤ 4_900_000) }
    ensures { (result ≡ sludge_as_cod R.upward inert degradable corrected) × (result ≤ 7_170_000) }
{
    let corrected = corrected.get();
    let biomass = R::rounded(67000 * degradable, 100000 + 17 * corrected);
    inert + biomass + R::rounded(34 * biomass * corrected, 1_000_000)
}

// Carbon sludge, g/d, towards more sludge: A14. The dose is added after the degradable COD was held at 0.
#[tactic(auto, unfolding(rules::specs::CodBalance::carbon_sludge_by_cod, rules::specs::CodBalance::inorganic_solids))]
pub fn carbon_sludge(accepted: &Accepted, corrected: CorrectedAge) -> CarbonSludge
    ensures { result ≡ carbon_sludge_by_cod accepted.now.plant.flow accepted.now.concentrations.cod accepted.now.concentrations.solids accepted.now.plant.dose corrected }
{
    let plant = &accepted.plant;
    let cod = accepted.concentrations.cod;
    let solids = accepted.concentrations.solids;
    let inert = inert_of_solids::<Up>(solids);
    let soluble = inert_soluble::<Down>(cod);
    let degradable = degradable(cod, soluble, inert) + dosed(u64::from(plant.dose));
    let sludge = sludge_as_cod::<Up>(inert, degradable, corrected);
    let inorganic = round_up(3 * solids, 10);
    CarbonSludge::new(round_up(
        u64::from(plant.flow) * (100 * sludge + 116 * inorganic),
        116_000,
    ))
}

// Oxygen, mg/m3, at least 0: every equation rounded up, towards less oxygen, or down, towards more.
#[tactic(auto, unfolding(rules::specs::CodBalance::oxygen_by_cod))]
fn oxygen<R: Rounding>(accepted: &Accepted, corrected: CorrectedAge) -> u64
    ensures { (result ≡ oxygen_by_cod R.upward accepted.now.concentrations.cod accepted.now.concentrations.solids corrected) × (result ≤ 4_400_000) }
{
    let cod = accepted.concentrations.cod;
    let inert = inert_of_solids::<R>(accepted.concentrations.solids);
    let soluble = inert_soluble::<R>(cod);
    let degradable = degradable(cod, soluble, inert);
    let sludge = sludge_as_cod::<R>(inert, degradable, corrected);
    cod.saturating_sub(soluble).saturating_sub(sludge)
}

// Oxygen for carbon, g/d, towards more oxygen: A16.
#[tactic(auto, unfolding(rules::specs::CodBalance::carbon_oxygen_by_cod))]
pub fn carbon_oxygen(accepted: &Accepted, corrected: CorrectedAge) -> CarbonOxygen
    ensures { result ≡ carbon_oxygen_by_cod accepted.now.plant.flow accepted.now.concentrations.cod accepted.now.concentrations.solids corrected }
{
    let flow = u64::from(accepted.plant.flow);
    CarbonOxygen::new(round_up(flow * oxygen::<Down>(accepted, corrected), 1000))
}

// What stands for K × C in a process that denitrifies by its oxygen uptake, towards less oxygen.
#[tactic(auto, unfolding(rules::specs::CodBalance::removed_by_oxygen))]
pub fn removed_by_oxygen(
    accepted: &Accepted,
    fraction: GridFraction,
    corrected: CorrectedAge,
) -> OwnRemoval
    ensures { result ≡ removed_by_oxygen fraction accepted.now.concentrations.cod accepted.now.concentrations.solids corrected }
{
    let oxygen = oxygen::<Up>(accepted, corrected);
    OwnRemoval::new(1000 * (75 * fraction.get() * oxygen / 290_000))
}
