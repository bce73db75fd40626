// A sweep that can be put down: a start on accepted data, advances by a number of candidates in the order of the sweep, and
// examinations between them. Its state is the plant data, the readings, the number asked for and the best so far, and nothing else.
#![tactic(auto)]

ghost use Rattle.std.specs.Prelude.{◌≡◌, false, ◌+◌, ◌≤◌, ◌<◌, T, Ok};
ghost use Rattle.rules.specs.Limits.{most_advance, least_fraction, most_fraction};
ghost use Rattle.rules.specs.Examining.{examine};
ghost use Rattle.rules.specs.Ranges.{GridFraction};
ghost use Rattle.rules.specs.Answers.{answer_number, answer_sheet, progress_number, progress_sheet};
ghost use Rattle.rules.specs.Outcomes.{Examined};
ghost use Rattle.rules.specs.TwoColumns.{TwoColumns};
ghost use Rattle.rules.specs.Census.{grid_size};
ghost use Rattle.rules.specs.Sweep.{per_fraction, best_kept, best_answer};
ghost use Rattle.choosing.specs.Runs.{LeastOfRun};
ghost use Rattle.sweeping.specs.Sweeps.{started, AdvancedFrom, Moves, AdvanceOutcome, ProgressColumns, numbers_kept};
ghost use Rattle.sweeping.specs.Spots.{NoneCovered, spot_of, LeastOfStretch, HandedKey, LeastOfHandedOn};

use choosing::{Key, MOST_TANKS, Tanks, kept_mass, lesser};
use reactor::Basis;
use rules::{
    Accepted, Answer, Candidate, GridFraction, LEAST_FRACTION, MOST_ADVANCE, MOST_FRACTION, Plant,
    Progress, Readings, Refusal, TankFlow,
};

// What a sweep hands on.
#[derive(Clone, Copy)]
pub struct Sweep {
    pub plant: Plant,
    pub readings: Readings,
    // candidates asked for, at most as many as the grid has
    pub asked: u32,
    pub best: Option<Candidate>,
}

// The sweep after an advance, and what the advance answers.
#[derive(Clone, Copy)]
pub struct Advanced {
    pub sweep: Sweep,
    pub progress: Result<Progress, Refusal>,
}

// A place of the sweep's order: the fraction, and the tank's place in the table.
#[derive(Clone, Copy)]
pub struct Spot {
    pub fraction: u32,
    pub tank: u32,
}

impl Spot {
    // The spot of a place of the order.
    fn at(flow: TankFlow, i: u32) -> Spot
        requires { i ≤ 128_226 }
        ensures { result ≡ spot_of flow i }
    {
        let tanks = choosing::per_fraction(flow);
        Spot {
            fraction: LEAST_FRACTION + i / tanks,
            tank: i % tanks,
        }
    }
}

// How many candidates the grid has.
#[tactic(auto, unfolding(rules::specs::Census::grid_size))]
fn grid_size(flow: TankFlow) -> u32
    ensures { (result ≡ grid_size flow) × (result ≤ 128_226) }
{
    match flow {
        TankFlow::Horizontal => 83_076,
        TankFlow::Vertical => 128_226,
    }
}

// An advance by at most 1,000 candidates, from a number of the grid's.
fn numbers_kept(flow: TankFlow, asked: u32, n: u32) -> bool
    ensures { result ≡ numbers_kept flow asked n }
{
    n <= MOST_ADVANCE && asked <= grid_size(flow)
}

// Some fraction from the first to the last is covered.
fn any_covered(basis: &Basis, first: u32, last: u32) -> bool
    requires { (least_fraction ≤ first) × (last ≤ most_fraction) }
    ensures { result ≡ false → NoneCovered basis.now.data first (last + 1) }
{
    (first..last + 1).any(|f| kept_mass(basis, GridFraction::new(u64::from(f))).is_some())
}

// The least key over the tanks of one fraction from a place of the table on, before another.
fn part(tanks: &Tanks, fraction: u32, from: u32, to: u32) -> Option<Key>
    requires { (from ≤ to) × (to ≤ per_fraction tanks.now.basis.now.data.plant.tank) × (from < to → GridFraction fraction) }
    ensures { LeastOfRun tanks.now.basis.now.data fraction from to result }
{
    if to <= from {
        return None;
    }
    let mass = kept_mass(tanks.basis, GridFraction::new(u64::from(fraction)))?;
    tanks.run(mass, fraction, from, to)
}

// The least key over a stretch of the order: the end of one fraction, whole fractions, the beginning of one.
fn between(tanks: &Tanks, from: u32, to: u32) -> Option<Key>
    requires { (from ≤ to) × (to ≤ grid_size tanks.now.basis.now.data.plant.tank) }
    ensures { LeastOfStretch tanks.now.basis.now.data from to result }
{
    let flow = tanks.basis.data.plant.tank;
    let first = Spot::at(flow, from);
    let past = Spot::at(flow, to);
    if first.fraction == past.fraction {
        return part(tanks, first.fraction, first.tank, past.tank);
    }
    let head = part(
        tanks,
        first.fraction,
        first.tank,
        choosing::per_fraction(flow),
    );
    let whole = tanks.fractions(first.fraction + 1, past.fraction);
    let tail = part(tanks, past.fraction, 0, past.tank);
    lesser(lesser(head, whole), tail)
}

// The same. The tanks are looked at only where some fraction of the stretch is covered.
fn stretch(basis: &Basis, from: u32, to: u32) -> Option<Key>
    requires { (from ≤ to) × (to ≤ grid_size basis.now.data.plant.tank) }
    ensures { LeastOfStretch basis.now.data from to result }
{
    let flow = basis.data.plant.tank;
    let first = Spot::at(flow, from);
    let past = Spot::at(flow, to);
    if !any_covered(basis, first.fraction, past.fraction.min(MOST_FRACTION)) {
        return None;
    }
    let mut table = [None; MOST_TANKS];
    let tanks = Tanks::new(basis, &mut table);
    between(&tanks, from, to)
}

// The key of a best that is handed on, which is examined again: a refusal where it is not permitted.
fn handed_on(accepted: &Accepted, best: Option<Candidate>) -> Result<Option<Key>, Refusal>
    ensures { HandedKey accepted.now best result }
{
    let Some(candidate) = best else {
        return Ok(None);
    };
    let sheet = examining::judge(accepted, candidate)?;
    Ok(Some(Key {
        total: sheet.total,
        fraction: candidate.fraction,
        return_ratio: candidate.return_ratio,
        thickening: candidate.thickening,
    }))
}

// What a best answers once nothing is left to ask for.
fn best_answer(accepted: &Accepted, best: Option<Candidate>) -> Answer
    requires { T (best_kept accepted.now.plant accepted.now.concentrations best) }
    ensures { result ≡ best_answer accepted.now.plant accepted.now.concentrations best }
{
    match best {
        None => Err(Refusal::NoDesign),
        Some(candidate) => examining::judge(accepted, candidate),
    }
}

impl Sweep {
    // Starts on plant data and readings: their usual refusal and no sweep, or a sweep that has asked for nothing.
    pub fn new(plant: Plant, readings: Readings) -> Result<Sweep, Refusal>
        ensures { result ≡ started plant readings }
    {
        accepting::accept(plant, readings)?;
        Ok(Sweep {
            plant,
            readings,
            asked: 0,
            best: None,
        })
    }

    // An advance that is not refused, with the key of the best that is handed on.
    fn go_on(&mut self, accepted: &Accepted, n: u32, key: Option<Key>) -> Progress
        requires { (accepted.now.plant ≡ self.old.plant) × (n ≤ most_advance) × (self.old.asked ≤ grid_size self.old.plant.tank)
            × LeastOfHandedOn accepted.now self.old.best key × T (best_kept accepted.now.plant accepted.now.concentrations self.old.best) }
        ensures { Moves accepted.now.concentrations self.old n self.new (Ok result) }
    {
        let basis = Basis::new(*accepted);
        let size = grid_size(self.plant.tank);
        let to = (self.asked + n).min(size);
        let best = lesser(key, stretch(&basis, self.asked, to)).map(Key::candidate);
        self.asked = to;
        self.best = best;
        if to < size {
            return Progress::Unfinished(best);
        }
        Progress::Finished(best_answer(accepted, best))
    }

    // Asks for the next n candidates: 19 and nothing moved, "unfinished" with the best so far, or what choosing answers.
    fn ask(&mut self, n: u32) -> Result<Progress, Refusal>
        ensures advanced_from { AdvancedFrom self.old n self.new result }
        ensures columns { ProgressColumns self.old.plant self.old.readings result }
        ensures numbered { AdvanceOutcome self.old n (progress_number result) (progress_sheet result) }
    {
        let Ok(accepted) = accepting::accept(self.plant, self.readings) else {
            return Err(Refusal::Advance);
        };
        if !numbers_kept(self.plant.tank, self.asked, n) {
            return Err(Refusal::Advance);
        }
        let Ok(key) = handed_on(&accepted, self.best) else {
            return Err(Refusal::Advance);
        };
        Ok(self.go_on(&accepted, n, key))
    }

    // The same, with the sweep handed back by value, as document 01 names the form.
    pub fn advance(mut self, n: u32) -> Advanced
        ensures advanced_from { AdvancedFrom self n result.sweep result.progress }
        ensures columns { ProgressColumns self.plant self.readings result.progress }
        ensures numbered { AdvanceOutcome self n (progress_number result.progress) (progress_sheet result.progress) }
    {
        let progress = self.ask(n);
        Advanced {
            sweep: self,
            progress,
        }
    }

    // Examines a candidate of the same plant: its usual answer. The sweep is only read.
    pub fn examine(self, candidate: Candidate) -> Answer
        ensures value { result ≡ examine self.plant self.readings candidate }
        ensures columns { TwoColumns self.plant self.readings result }
        ensures numbered { Examined self.plant self.readings candidate (answer_number result) (answer_sheet result) }
    {
        examining::examine(self.plant, self.readings, candidate)
    }
}
