// Document 01, "Plant data and site" and "Lab readings": plant data and readings accepted, or refused with 1, 17, 2
// to 4 or 14.
#![tactic(auto)]

ghost use Rattle.std.specs.Prelude.{◌≡◌, ◌<◌, ◌≤◌, ◌^◌, IfOk};
ghost use Rattle.std.specs.Float.Ieee.Nearest.{closest};
ghost use Rattle.rules.specs.PlantData.{plant_in_range};
ghost use Rattle.rules.specs.LabReadings.{no_number, per_head, result_in_range, ratio_refused};
ghost use Rattle.rules.specs.Accepting.{accept};
ghost use Rattle.rules.specs.Ranges.{Between};
ghost use Rattle.accepting.specs.CutOff.{measurement};
ghost use Rattle.accepting.specs.Conversion.{refusal_of, judge_result, convert, accept_readings};
ghost use Rattle.accepting.specs.Acceptance.{acceptance_of};

use rules::{
    Accepted, Concentrations, DailyFlow, Parameter, Plant, PrimarySettling, Reading, Readings,
    Refusal, Way,
};

// Why an f32 has no thousandths: it is no number, or at or above the cut-off 2^23.
#[derive(Clone, Copy, Debug, PartialEq, Eq)]
pub enum MeasurementError {
    NoNumber,
    TooLarge,
}

// What is too large is out of every range.
impl From<MeasurementError> for Refusal {
    ghost from_gives = { λ error refusal. refusal ≡ refusal_of error };

    fn from(error: MeasurementError) -> Refusal {
        match error {
            MeasurementError::NoNumber => Refusal::NoNumber,
            MeasurementError::TooLarge => Refusal::ReadingRange,
        }
    }
}

// Every plant and site figure is in its range.
pub fn plant_in_range(plant: &Plant) -> bool
    ensures { result ≡ plant_in_range plant.now }
{
    let figures = [
        (1, 100_000, plant.load),
        (1, 200_000, plant.flow),
        (1, 50_000, plant.wet_weather_flow),
        (
            rules::LEAST_TEMPERATURE,
            rules::MOST_TEMPERATURE,
            plant.design_temperature,
        ),
        (
            rules::LEAST_TEMPERATURE,
            rules::MOST_TEMPERATURE,
            plant.aeration_temperature,
        ),
        (50, 200, plant.sludge_volume_index),
        (
            rules::LEAST_NITRATE_TARGET,
            rules::MOST_NITRATE_TARGET,
            plant.nitrate_target,
        ),
        (0, 100_000, plant.phosphorus_target),
        (100, 300, plant.carbon_peak),
        (100, 300, plant.nitrogen_peak),
        (6_000, 15_000, plant.oxygen_saturation),
        (1, 100_000, plant.site_surface),
        (3_000, 10_000, plant.site_depth),
        (0, 500_000, plant.dose),
    ];
    figures
        .iter()
        .all(|&(least, most, n)| rounding::within(least, most, n))
}

// The f32 is not finite, or below zero: a NaN fails both comparisons, and minus zero passes them.
#[tactic(auto, using(crate::proofs::NumberTest::number_test))]
fn no_number(x: f32) -> bool
    ensures { result ≡ no_number x }
{
    !(0.0 <= x && x < f32::INFINITY)
}

// a / d to the nearest whole number, a tie to the even one.
fn nearest(a: u64, d: u64) -> u64
    requires { (0 < d) × (d ≤ 2 ^ 62) }
    ensures { result ≡ closest a d }
{
    let quotient = a / d;
    let twice = a % d * 2;
    if twice < d {
        quotient
    } else if d < twice {
        quotient + 1
    } else {
        quotient + quotient % 2
    }
}

// The thousandths nearest to 1 / parts of an f32's exact value, significand · 2^(exponent - 150).
#[tactic(auto, unfolding(crate::specs::CutOff::measurement))]
pub fn to_thousandths(x: f32, parts: u64) -> Result<u64, MeasurementError>
    requires { Between 1 2 parts }
    ensures { result ≡ measurement parts x }
{
    if no_number(x) {
        return Err(MeasurementError::NoNumber);
    }
    let bits = x.to_bits();
    let exponent = bits >> 23 & 0xff;
    let fraction = bits & 0x7f_ffff;
    // below 2^-17: nearest to 0
    if exponent < 110 {
        return Ok(0);
    }
    // 2^23 or more
    if 149 < exponent {
        return Err(MeasurementError::TooLarge);
    }
    let significand = u64::from(0x80_0000 + fraction);
    Ok(nearest(1000 * significand, parts << (150 - exponent)))
}

// The accepted results, mg/m3.
#[tactic(auto, unfolding(rules::specs::LabReadings::result_in_range))]
fn result_in_range(parameter: Parameter, n: u64) -> bool
    ensures { result ≡ result_in_range parameter n }
{
    match parameter {
        Parameter::Bod => (20_000..=2_000_000).contains(&n),
        Parameter::Cod => (20_000..=4_400_000).contains(&n),
        Parameter::Solids => n <= 2_000_000,
        Parameter::Nitrogen => n <= 500_000,
        Parameter::Phosphorus => n <= 100_000,
    }
}

// Rule 3 on a reading's thousandths.
fn judge_result(parameter: Parameter, n: u64) -> Result<u64, Refusal>
    ensures { result ≡ judge_result parameter n }
{
    if result_in_range(parameter, n) {
        Ok(n)
    } else {
        Err(Refusal::ReadingRange)
    }
}

// Table 1: g, tenths of g per head and day.
#[tactic(auto, unfolding(rules::specs::LabReadings::per_head))]
fn per_head(parameter: Parameter, settling: PrimarySettling) -> u64
    ensures { result ≡ per_head parameter settling }
{
    let [none, short, long] = match parameter {
        Parameter::Bod => [600, 450, 400],
        Parameter::Cod => [1200, 900, 800],
        Parameter::Solids => [700, 350, 250],
        Parameter::Nitrogen => [110, 100, 100],
        Parameter::Phosphorus => [18, 16, 16],
    };
    match settling {
        PrimarySettling::None => none,
        PrimarySettling::Short => short,
        PrimarySettling::Long => long,
    }
}

// A head count: its range, then its thousandths.
#[tactic(auto, using(crate::proofs::Conversions::heads))]
fn convert_heads(
    flow: u32,
    settling: PrimarySettling,
    parameter: Parameter,
    heads: u32,
) -> Result<u64, Refusal>
    requires { 0 < flow }
    ensures { result ≡ convert flow settling parameter (Reading.Heads heads) }
{
    if !rounding::within(1, 2_000_000, heads) {
        return Err(Refusal::ReadingRange);
    }
    let grams = per_head(parameter, settling);
    let n = rounding::round_up(u64::from(heads) * grams * 100, u64::from(flow));
    judge_result(parameter, n)
}

// One reading, at a flow above 0, also one above a plant's largest, and a primary settling: 2, then 3, else its thousandths.
pub fn convert_at_flow(
    flow: u32,
    settling: PrimarySettling,
    parameter: Parameter,
    reading: Reading,
) -> Result<u64, Refusal>
    requires { 0 < flow }
    ensures { result ≡ convert flow settling parameter reading }
{
    match reading {
        Reading::Measured(x) => judge_result(parameter, to_thousandths(x, 1)?),
        Reading::Below(x) => judge_result(parameter, to_thousandths(x, 2)?),
        Reading::Heads(n) => convert_heads(flow, settling, parameter, n),
    }
}

// One reading, at the plant's daily flow and primary settling: 2, then 3, else its thousandths.
pub fn convert(
    flow: DailyFlow,
    settling: PrimarySettling,
    parameter: Parameter,
    reading: Reading,
) -> Result<u64, Refusal>
    ensures { result ≡ convert flow settling parameter reading }
{
    convert_at_flow(flow.get() as u32, settling, parameter, reading)
}

// 4: the COD is too high beside the BOD, in the way by BOD.
#[tactic(auto, unfolding(rules::specs::LabReadings::ratio_refused, rules::specs::LabReadings::cod_ratio_broken))]
fn ratio_refused(way: Way, bod: u64, cod: u64) -> bool
    requires { (bod ≤ 4_400_000) × (cod ≤ 4_400_000) }
    ensures { result ≡ ratio_refused way bod cod }
{
    match way {
        Way::Bod => 11 * bod < 5 * cod,
        Way::Cod => false,
    }
}

// The readings of a plant: 2 and 3 for each in turn; then 4; else the concentrations.
#[tactic(auto, unfolding(crate::specs::Conversion::accept_readings, crate::specs::Conversion::gather))]
fn accept_readings(plant: &Plant, readings: Readings) -> Result<Concentrations, Refusal>
    requires { Between 1 200_000 plant.now.flow }
    ensures { result ≡ accept_readings plant.now readings }
{
    let flow = plant.flow;
    let settling = plant.primary_settling;
    let bod = convert_at_flow(flow, settling, Parameter::Bod, readings.bod)?;
    let cod = convert_at_flow(flow, settling, Parameter::Cod, readings.cod)?;
    let solids = convert_at_flow(flow, settling, Parameter::Solids, readings.solids)?;
    let nitrogen = convert_at_flow(flow, settling, Parameter::Nitrogen, readings.nitrogen)?;
    let phosphorus = convert_at_flow(flow, settling, Parameter::Phosphorus, readings.phosphorus)?;
    if ratio_refused(plant.way, bod, cod) {
        return Err(Refusal::CodRatio);
    }
    Ok(Concentrations {
        bod,
        cod,
        solids,
        nitrogen,
        phosphorus,
    })
}

// Plant data and readings: 1; then 17; then 2 and 3 for each reading in turn; then 4; then 14; else accepted.
pub fn accept(plant: Plant, readings: Readings) -> Result<Accepted, Refusal>
    ensures value { acceptance_of result ≡ accept plant readings }
    ensures plant { IfOk result (λ a. a.plant ≡ plant) }
{
    if !plant_in_range(&plant) {
        return Err(Refusal::PlantData);
    }
    if rules::MOST_INDEX < plant.sludge_volume_index {
        return Err(Refusal::Bulking);
    }
    let concentrations = accept_readings(&plant, readings)?;
    if !consents::consent_valid(&plant.consent) {
        return Err(Refusal::Terms);
    }
    Ok(Accepted {
        plant,
        concentrations,
    })
}

#[cfg(test)]
mod tests {
    use super::*;

    // 15,000 heads, BOD: 60 g of each a day, or 40 behind a long primary settling.
    #[test]
    fn converted(rt: HostRuntime) {
        for (flow, settling, want) in [
            (3_000, PrimarySettling::None, Ok(300_000)),
            (3_000, PrimarySettling::Long, Ok(200_000)),
            (200_000, PrimarySettling::None, Err(Refusal::ReadingRange)),
        ] {
            let flow = DailyFlow::new(flow);
            let got = convert(flow, settling, Parameter::Bod, Reading::Heads(15_000));
            assert_eq!(rt; got, want);
        }
    }
}
