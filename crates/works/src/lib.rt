// Works in several lines: the whole works' data are accepted like one plant's, each line is chosen for as a plant of its own, and
// the works is put together from its lines' answers.
#![tactic(auto)]

ghost use Rattle.std.specs.Prelude.{◌≡◌, ◌∷◌, ◌&&◌, ◌+◌, ◌-◌, ◌*◌, ◌≤◌, ◌<◌, T, length, IfOk};
ghost use Rattle.rules.specs.Rounding.{down};
ghost use Rattle.rules.specs.Limits.{most_lines};
ghost use Rattle.rules.specs.PlantData.{within};
ghost use Rattle.rules.specs.Rules.{rule, verdict};
ghost use Rattle.rules.specs.Accepting.{values_of, data_rules, accept_by};
ghost use Rattle.rules.specs.Ranges.{SheetBounds};
ghost use Rattle.rules.specs.Lines.{shares_to, shares_positive, split_valid, line_of, line_positive, LineChosen, LineAnswered};
ghost use Rattle.rules.specs.Works.{works_of, WorksChosen, works_figures};
ghost use Rattle.accepting.specs.Acceptance.{acceptance_of};
ghost use Rattle.works.specs.Entries.{answer_at, works_count, most_shares, SumsBounds, sums_with, LinesChosen, SheetsBounded};

use rules::{Accepted, Answer, MOST_LINES, Plant, Readings, Refusal, Sheet, Split, Sums, Works};

// How many figures a works has: eight sums, and fifteen for each of eight lines.
pub const WORKS_FIGURES: usize = 128;

// The shares of the first lines added up.
fn shares_to(split: &Split, lines: usize) -> u64
    requires { lines ≤ most_lines }
    ensures { (result ≡ shares_to split.now lines) × (result ≤ most_shares) }
{
    split.shares[..lines]
        .iter()
        .map(|share| u64::from(*share))
        .sum()
}

// Each of the first shares is at least 1.
fn shares_positive(split: &Split, lines: usize) -> bool
    requires { lines ≤ most_lines }
    ensures { result ≡ shares_positive split.now.shares lines }
{
    split.shares[..lines].iter().all(|share| 1 <= *share)
}

// 18 is not due: two to eight lines, each share at least 1, the shares adding up to 1,000.
#[tactic(auto, unfolding(rules::specs::Lines::split_valid))]
fn split_valid(split: &Split) -> bool
    ensures { result ≡ split_valid split.now }
{
    let count = split.count as usize;
    rounding::within(2, 8, split.count)
        && shares_positive(split, count)
        && shares_to(split, count) == 1000
}

// A line's part of an amount, from the shares added up before the line and with it.
fn part(whole: u32, before: u64, to: u64) -> u32
    requires { (whole ≤ 200_000) × (before ≤ to) × (to ≤ 1000) }
    ensures { result ≡ down (whole * to) 1000 - down (whole * before) 1000 }
{
    let whole = u64::from(whole);
    (whole * to / 1000 - whole * before / 1000) as u32
}

// None of a line's daily flow, wet weather flow and surface is 0.
#[tactic(auto, unfolding(rules::specs::Lines::line_positive))]
fn line_positive(line: &Plant) -> bool
    ensures { result ≡ line_positive line.now }
{
    1 <= line.flow && 1 <= line.wet_weather_flow && 1 <= line.site_surface
}

// Accepted data of a works, and how it is split.
#[derive(Drop)]
struct Lines<'a> {
    accepted: &'a Accepted,
    split: &'a Split,
    ghost valid: { T (split_valid split.now) },
}

impl<'a> Lines<'a> {
    // A line of the works, as a plant.
    fn plant(&self, i: usize) -> Plant
        requires { i < self.now.split.now.count }
        ensures { result ≡ line_of self.now.accepted.now.plant self.now.split.now i }
    {
        let plant = self.accepted.plant;
        let before = shares_to(self.split, i);
        let to = shares_to(self.split, i + 1);
        Plant {
            flow: part(plant.flow, before, to),
            wet_weather_flow: part(plant.wet_weather_flow, before, to),
            site_surface: part(plant.site_surface, before, to),
            ..plant
        }
    }

    // The answer of a line: 1 where a part of it is 0, else the design chosen for it, or 5.
    fn answer(&self, i: usize) -> Answer
        requires { i < self.now.split.now.count }
        ensures { LineChosen (line_of self.now.accepted.now.plant self.now.split.now i) self.now.accepted.now.concentrations result }
    {
        let plant = self.plant(i);
        verdicts::rule(line_positive(&plant), Refusal::PlantData)?;
        choosing::choose_accepted(&Accepted {
            plant,
            concentrations: self.accepted.concentrations,
        })
    }

    // The answers of all lines, in order; past the last, what nothing reads. A loop: `array::from_fn` takes 4 kilobytes of stack more.
    fn answers(&self) -> [Answer; MOST_LINES]
        ensures { LinesChosen self.now.accepted.now.plant self.now.accepted.now.concentrations self.now.split.now self.now.split.now.count result }
    {
        let mut answers = [Err(Refusal::PlantData); MOST_LINES];
        'line: for i in 0..self.split.count as usize {
            answers[i] = self.answer(i);
        }
        answers
    }
}

// The figures of one sheet more added to the sums of n.
fn added(sums: Sums, sheet: Sheet, n: u64) -> Sums
    requires { (n < most_lines) × SumsBounds n sums × SheetBounds sheet }
    ensures { (result ≡ sums_with sums sheet) × SumsBounds (n + 1) result }
{
    Sums {
        sludge: sums.sludge + sheet.sludge,
        mass: sums.mass + sheet.mass,
        surface: sums.surface + sheet.surface,
        reactor: sums.reactor + sheet.reactor,
        settling: sums.settling + sheet.settling,
        total: sums.total + sheet.total,
        oxygen: sums.oxygen + sheet.oxygen,
        transfer: sums.transfer + sheet.transfer,
    }
}

// A works from its lines' answers: the refusal of the first refused line, else all sums and sheets, zeros past the last line.
fn put_together(answers: &[Answer]) -> Result<Works, Refusal>
    requires { (length answers.now ≤ most_lines) × SheetsBounded answers.now (length answers.now) }
    ensures { result ≡ works_of (answer_at answers.now) (length answers.now) }
{
    let mut works = Works {
        sums: Sums::default(),
        sheets: [Sheet::default(); MOST_LINES],
    };
    'line: for (i, answer) in answers.iter().enumerate() {
        let sheet = (*answer)?;
        works.sums = added(works.sums, sheet, i as u64);
        works.sheets[i] = sheet;
    }
    Ok(works)
}

// 18 where the split, or the number of a line, is invalid; else what the whole works' data get: one clause for both calls. The bool is a
// test's answer.
fn accept_split(plant: Plant, readings: Readings, valid: bool) -> Result<Accepted, Refusal>
    ensures value { acceptance_of result ≡ accept_by (verdict (rule Refusal.Lines valid ∷ data_rules plant readings)) (values_of plant readings) }
    ensures plant { IfOk result (λ a. a.plant ≡ plant) }
{
    verdicts::rule(valid, Refusal::Lines)?;
    accepting::accept(plant, readings)
}

// The figures of a works in order, which fields do not have: the sums, then those of each line's sheet.
pub fn figures(works: Works, figures: &mut [u64])
    requires { length figures.old ≡ works_count }
    ensures { figures.new ≡ works_figures works }
{
    let sums = works.sums;
    let row = [
        sums.sludge,
        sums.mass,
        sums.surface,
        sums.reactor,
        sums.settling,
        sums.total,
        sums.oxygen,
        sums.transfer,
    ];
    words::store(figures, 0, &row);
    for (i, sheet) in works.sheets.iter().enumerate() {
        words::store(figures, 8 + 15 * i, &listing::figures(*sheet));
    }
}

// What a works is answered with, for any plant data, lab readings and split.
pub fn works(plant: Plant, readings: Readings, split: Split) -> Result<Works, Refusal>
    ensures { WorksChosen plant readings split result }
{
    let accepted = accept_split(plant, readings, split_valid(&split))?;
    let lines = Lines {
        accepted: &accepted,
        split: &split,
    };
    let answers = lines.answers();
    put_together(&answers[..split.count as usize])
}

// 18 is not due for a line asked for by its number: the split is valid, and the works has such a line.
fn line_valid(split: &Split, number: u32) -> bool
    ensures { result ≡ (split_valid split.now && within 1 split.now.count number) }
{
    split_valid(split) && rounding::within(1, split.count, number)
}

// The answer of one line by its number from 1, whatever the other lines get.
pub fn line(plant: Plant, readings: Readings, split: Split, number: u32) -> Answer
    ensures { LineAnswered plant readings split number result }
{
    let accepted = accept_split(plant, readings, line_valid(&split, number))?;
    let lines = Lines {
        accepted: &accepted,
        split: &split,
    };
    lines.answer(number as usize - 1)
}
