// Existing tanks against a moody sludge: whether at each sludge volume index of a span some return ratio is permitted and needs no
// more than is built, or the smallest index at which none is. The reactor does not know the index and is computed once; each index is
// tried by itself, since one that is won says nothing of the next.
#![tactic(auto)]

ghost use Rattle.std.specs.Prelude.{◌≡◌, T, IfOk, Ok};
ghost use Rattle.rules.specs.Ranges.{Index};
ghost use Rattle.rules.specs.Existing.{span_valid, sizes_positive, operated_on_grid, accept_built, HeldOrLost, BuiltAnswered};
ghost use Rattle.accepting.specs.Acceptance.{acceptance_of};
ghost use Rattle.existing.specs.Tanks.{sizes_fit, tank_wins, Decides, TankWon, WonAt, SpanTried};

use reactor::Basis;
use rules::{
    Accepted, Existing, GridFraction, GridRatio, GridTime, IndexSpan, Plant, Readings, Refusal,
    SludgeMass,
};
use settling::Thickened;

// 20 is not due: the span is not empty and lies within 50..180.
#[tactic(auto, unfolding(rules::specs::Existing::span_valid))]
fn span_valid(span: IndexSpan) -> bool
    ensures { result ≡ span_valid span }
{
    span.least <= span.most && rules::LEAST_INDEX <= span.least && span.most <= rules::MOST_INDEX
}

// 21 is not due: no built size is 0.
#[tactic(auto, unfolding(rules::specs::Existing::sizes_positive))]
fn sizes_positive(existing: Existing) -> bool
    ensures { result ≡ sizes_positive existing }
{
    1 <= existing.reactor && 1 <= existing.surface && 1 <= existing.depth
}

// 6 is not due: the fraction and the thickening time are on the grid.
#[tactic(auto, unfolding(rules::specs::Existing::operated_on_grid))]
fn operated_on_grid(existing: Existing) -> bool
    ensures { result ≡ operated_on_grid existing }
{
    rounding::within(
        rules::LEAST_FRACTION,
        rules::MOST_FRACTION,
        existing.fraction,
    ) && rounding::within(rules::LEAST_TIME, rules::MOST_TIME, existing.thickening)
}

// 20; then 21; then what the data get; then 6. Tanks and span are two things of document 02, and come apart.
fn accept_built(
    plant: Plant,
    readings: Readings,
    existing: Existing,
    span: IndexSpan,
) -> Result<Accepted, Refusal>
    ensures value { acceptance_of result ≡ accept_built plant readings existing span }
    ensures plant { IfOk result (λ a. a.plant ≡ plant) }
{
    verdicts::rule(span_valid(span), Refusal::Span)?;
    verdicts::rule(sizes_positive(existing), Refusal::BuiltSize)?;
    let accepted = accepting::accept(plant, readings)?;
    verdicts::rule(operated_on_grid(existing), Refusal::OffGrid)?;
    Ok(accepted)
}

// Reactor volume, surface and depth are built.
fn sizes_fit(existing: Existing, reactor: u64, surface: u64, depth: u64) -> bool
    ensures { result ≡ sizes_fit existing reactor surface depth }
{
    reactor <= u64::from(existing.reactor)
        && surface <= u64::from(existing.surface)
        && depth <= u64::from(existing.depth)
}

// Existing tanks with the sludge mass that their reactor holds, for accepted data.
#[derive(Clone, Copy)]
struct Tanks {
    accepted: Accepted,
    existing: Existing,
    mass: SludgeMass,
    ghost operated: { T (operated_on_grid existing) },
}

impl Tanks {
    // The settling tank of a return ratio keeps its rules, and it and the reactor are built.
    fn wins(&self, thickened: &Thickened, ratio: GridRatio) -> bool
        requires { (thickened.now.accepted.now ≡ self.now.accepted) × (thickened.now.time ≡ self.now.existing.thickening) }
        ensures { result ≡ tank_wins self.now.accepted.plant self.now.existing self.now.mass ratio }
    {
        let plant = &self.accepted.plant;
        let settling = thickened.tank(ratio);
        if settling::tank_verdict(plant, &settling).is_err() {
            return false;
        }
        let solids = reactor::reactor_solids(plant.process, settling.solids);
        let volume = reactor::reactor_volume(self.mass, solids);
        let surface = settling.surface.get();
        let depth = settling.depth.get();
        sizes_fit(self.existing, volume, surface, depth)
    }

    // Whether the plant's own index can be won: each return ratio of the grid is tried, until one wins.
    fn won(&self) -> bool
        ensures { Decides (TankWon self.now.accepted.plant self.now.existing self.now.mass) result }
    {
        let last = examining::largest_return_ratio(self.accepted.plant.tank);
        let time = GridTime::new(u64::from(self.existing.thickening));
        let thickened = Thickened::new(&self.accepted, time);
        (rules::LEAST_RATIO..last + 1).any(|ratio| self.wins(
            &thickened,
            GridRatio::new(u64::from(ratio)),
        ))
    }

    // Whether an index can be won, at the plant with that index.
    #[tactic(auto, unfolding(rules::specs::OtherSteps::with_index))]
    fn won_at(&self, index: u32) -> bool
        requires { Index index }
        ensures { Decides (WonAt self.now.accepted.plant self.now.existing self.now.mass index) result }
    {
        let mut tanks = *self;
        tanks.accepted.plant.sludge_volume_index = index;
        tanks.won()
    }

    // The first index of the span that is lost, if any.
    fn first_lost(&self, span: IndexSpan) -> Option<u32>
        requires { T (span_valid span) }
        ensures { SpanTried self.now.accepted.plant self.now.existing self.now.mass span result }
    {
        (span.least..span.most + 1).find(|&index| !self.won_at(index))
    }
}

// Existing tanks of accepted data. Where the fraction breaks a rule of its own, every index is lost, the least of the span first.
fn held_or_lost(accepted: &Accepted, existing: Existing, span: IndexSpan) -> Option<u32>
    requires { T (operated_on_grid existing) × T (span_valid span) }
    ensures { HeldOrLost accepted.now.plant accepted.now.concentrations existing span (Ok result) }
{
    let basis = Basis::new(*accepted);
    let reactor = basis.reactor(GridFraction::new(u64::from(existing.fraction)));
    if basis.fraction_verdict(&reactor).is_err() {
        return Some(span.least);
    }
    let tanks = Tanks {
        accepted: *accepted,
        existing,
        mass: reactor.mass,
    };
    tanks.first_lost(span)
}

// What existing tanks are answered with, for any plant data, lab readings, tanks and span: the smallest index that is lost, if any.
pub fn built(
    plant: Plant,
    readings: Readings,
    existing: Existing,
    span: IndexSpan,
) -> Result<Option<u32>, Refusal>
    ensures { BuiltAnswered plant readings existing span result }
{
    let accepted = accept_built(plant, readings, existing, span)?;
    Ok(held_or_lost(&accepted, existing, span))
}
