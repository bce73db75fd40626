// The census of the grid: how many candidates get each numbered answer. A candidate's first broken rule is its fraction's, or
// its settling tank's where the fraction keeps its own; so fractions and tanks are tallied apart, each once, and the counts
// are products.
#![tactic(auto)]

ghost use Rattle.std.specs.Prelude.{◌≡◌, ◌+◌, ◌*◌, ◌≤◌, ◌<◌};
ghost use Rattle.rules.specs.Limits.{least_ratio, least_time, most_time};
ghost use Rattle.rules.specs.Sums.{span, values_from};
ghost use Rattle.rules.specs.Ranges.{GridRatio};
ghost use Rattle.rules.specs.Census.{answer_numbers, counted, census};
ghost use Rattle.census.specs.Tallies.{fractions, most_tanks, fraction_number, tank_number, fraction_count, tank_count, Tally, AtMost, pairs};

use reactor::Basis;
use rules::{
    ANSWER_NUMBERS, Accepted, GridFraction, GridRatio, GridTime, Plant, Readings, Refusal,
};
use settling::Thickened;
use std::array;

// The number of a fraction's verdict: a place in the counts, as that of a tank's verdict is.
#[tactic(auto, unfolding(crate::specs::Tallies::fraction_number))]
fn fraction_number(basis: &Basis, fraction: GridFraction) -> usize
    ensures { (result ≡ fraction_number basis.now.data.plant basis.now.data.concentrations fraction) × (result < answer_numbers) }
{
    let reactor = basis.reactor(fraction);
    listing::answer_number(basis.fraction_verdict(&reactor)) as usize
}

// The number of a settling tank's verdict, from the bottom sludge of its thickening time.
#[tactic(auto, unfolding(crate::specs::Tallies::tank_number))]
fn tank_number(thickened: &Thickened, ratio: GridRatio) -> usize
    ensures { (result ≡ tank_number thickened.now.accepted.now.plant ratio thickened.now.time) × (result < answer_numbers) }
{
    let settling = thickened.tank(ratio);
    listing::answer_number(settling::tank_verdict(&thickened.accepted.plant, &settling)) as usize
}

// The verdicts of the grid's fractions, tallied. What runs through the grid here and below are its own figures, no index.
fn fraction_tally(accepted: &Accepted) -> [u64; ANSWER_NUMBERS]
    ensures { Tally (fraction_count accepted.now.plant accepted.now.concentrations fractions) result }
{
    let basis = Basis::new(*accepted);
    let mut tally = [0; ANSWER_NUMBERS];
    'fraction: for f in rules::LEAST_FRACTION..=rules::MOST_FRACTION {
        tally[fraction_number(&basis, GridFraction::new(u64::from(f)))] += 1;
    }
    tally
}

// The verdicts of the grid's settling tanks with return ratios up to the last, tallied. One bottom sludge serves all return
// ratios of a thickening time.
fn tank_tally(accepted: &Accepted, last: u32) -> [u64; ANSWER_NUMBERS]
    requires { GridRatio last }
    ensures { Tally (tank_count accepted.now.plant (span least_ratio last) (span least_time most_time)) result }
{
    let mut tally = [0; ANSWER_NUMBERS];
    'time: for h in rules::LEAST_TIME..=rules::MOST_TIME {
        let thickened = Thickened::new(accepted, GridTime::new(u64::from(h)));
        'ratio: for r in rules::LEAST_RATIO..=last {
            tally[tank_number(&thickened, GridRatio::new(u64::from(r)))] += 1;
        }
    }
    tally
}

// How many pairs of a fraction and a settling tank break a rule first: the fraction's with every tank, and the tank's with
// every fraction that keeps its rules.
fn pair_count(fraction: u64, kept: u64, tank: u64, tanks: u64) -> u64
    requires { (fraction ≤ fractions) × (kept ≤ fractions) × (tank ≤ most_tanks) × (tanks ≤ most_tanks) }
    ensures { result ≡ fraction * tanks + kept * tank }
{
    fraction * tanks + kept * tank
}

// The counts of the pairs of a fraction and a settling tank by their numbers; of the number 0, both keep their rules.
fn pair_counts(
    fraction: [u64; ANSWER_NUMBERS],
    tank: [u64; ANSWER_NUMBERS],
    tanks: u64,
) -> [u64; ANSWER_NUMBERS]
    requires { AtMost fractions fraction × AtMost most_tanks tank × (tanks ≤ most_tanks) }
    ensures { result ≡ values_from 0 answer_numbers (pairs fraction tank tanks) }
{
    let kept = fraction[0];
    array::from_fn(|k| {
        if k == 0 {
            kept * tank[0]
        } else {
            pair_count(fraction[k], kept, tank[k], tanks)
        }
    })
}

// The counts of accepted data.
fn grid_counts(accepted: &Accepted) -> [u64; ANSWER_NUMBERS]
    ensures { result ≡ values_from 0 answer_numbers (counted accepted.now.plant accepted.now.concentrations) }
{
    let last = examining::largest_return_ratio(accepted.plant.tank);
    let ratios = u64::from(last + 1 - rules::LEAST_RATIO);
    let times = u64::from(rules::MOST_TIME + 1 - rules::LEAST_TIME);
    pair_counts(
        fraction_tally(accepted),
        tank_tally(accepted, last),
        ratios * times,
    )
}

// The census of any plant data and readings: the counts, or the first refusal of the data.
pub fn census(plant: Plant, readings: Readings) -> Result<[u64; ANSWER_NUMBERS], Refusal>
    ensures { result ≡ census plant readings }
{
    let accepted = accepting::accept(plant, readings)?;
    Ok(grid_counts(&accepted))
}
