// What a sweep goes through: what the fractions of accepted data rest on, and the table of their settling tanks.
ghost use Rattle.std.specs.Prelude.{◌≡◌, ◌≤◌, ◌<◌, ◌+◌, IfSome};
ghost use Rattle.std.proofs.Props.{props};
ghost use Rattle.rules.specs.Limits.{least_fraction, most_fraction};
ghost use Rattle.rules.specs.Sweep.{per_fraction};
ghost use Rattle.choosing.specs.Runs.{Covered, LeastOfRun, LeastOfFractions};
ghost use Rattle.choosing.specs.Tanks.{tank_of, TankBounds, TankAt, Filled, TimeFilled};

use crate::kept_mass;
use crate::keys::{Key, first_of, lesser};
use examining::largest_return_ratio;
use reactor::{Basis, reactor_solids, reactor_volume};
use rules::{
    GridFraction, GridRatio, GridTime, LEAST_RATIO, LEAST_TIME, MOST_TIME, ReactorSolids,
    SludgeMass, TankFlow,
};
use settling::{Thickened, tank_verdict};

// What the table holds of a settling tank: E', g/m3, and the settling volume, m3.
#[derive(Clone, Copy)]
pub struct Tank {
    pub solids: u32,
    pub volume: u32,
}

// The most tanks that a fraction has: those of vertical flow.
pub const MOST_TANKS: usize = 426;

// The settling tanks by return ratio, and for each by thickening time; none where a tank breaks a rule of the tank. By one number, since
// a sweep is put down at a number of its order.
pub type Table = [Option<Tank>; MOST_TANKS];

// The table lies with the caller, on whose stack it is filled: returned, it would lie there twice.
#[derive(Drop)]
pub struct Tanks<'a> {
    pub basis: &'a Basis,
    table: &'a Table,
    ghost filled: { Filled basis.now.data.plant table.now } by { Prim.hlevel props },
}

// How many tanks the grid of a flow has for each fraction.
pub fn per_fraction(flow: TankFlow) -> u32
    ensures { (result ≡ per_fraction flow) × (result ≤ 426) }
{
    match flow {
        TankFlow::Horizontal => 276,
        TankFlow::Vertical => 426,
    }
}

// A settling tank, if it keeps the rules of the tank.
#[tactic(auto, unfolding(crate::specs::Tanks::tank_of))]
fn tank_of(thickened: &Thickened, ratio: GridRatio) -> Option<Tank>
    ensures { (result ≡ tank_of thickened.now.accepted.now.plant ratio thickened.now.time) × IfSome result TankBounds }
{
    let plant = &thickened.accepted.plant;
    let tank = thickened.tank(ratio);
    tank_verdict(plant, &tank).ok()?;
    let solids = reactor_solids(plant.process, tank.solids);
    Some(Tank {
        solids: solids.get() as u32,
        volume: tank.volume.get() as u32,
    })
}

// Fills in the tanks of one thickening time, a loop since the table is written in place. In the order of the places instead a choice
// takes a tenth longer.
#[tactic(auto, using(crate::proofs::Filling::ratio_most))]
fn fill(table: &mut Table, thickened: &Thickened)
    ensures { TimeFilled thickened.now.accepted.now.plant thickened.now.time table.old table.new }
{
    let time = thickened.time.get() as u32 - LEAST_TIME;
    'ratio: for r in LEAST_RATIO..largest_return_ratio(thickened.accepted.plant.tank) + 1 {
        let i = (r - LEAST_RATIO) * 6 + time;
        table[i as usize] = tank_of(thickened, GridRatio::new(u64::from(r)));
    }
}

impl<'a> Tanks<'a> {
    // Fills the table once.
    pub fn new(basis: &'a Basis, table: &'a mut Table) -> Tanks<'a>
        ensures { result.basis.now ≡ basis.now }
    {
        let accepted = &basis.data;
        'time: for h in LEAST_TIME..=MOST_TIME {
            fill(
                table,
                &Thickened::new(accepted, GridTime::new(u64::from(h))),
            );
        }
        Tanks { basis, table }
    }

    // The tank at a place of the table, if it keeps the rules of the tank.
    fn tank(&self, i: u32) -> Option<Tank>
        requires { i < per_fraction self.now.basis.now.data.plant.tank }
        ensures { TankAt self.now.basis.now.data.plant i result }
    {
        self.table[i as usize]
    }

    // The key of a candidate at a covered fraction, by the place of its tank, if the tank keeps the rules of the tank.
    fn key(&self, mass: SludgeMass, fraction: u32, i: u32) -> Option<Key>
        requires { (i < per_fraction self.now.basis.now.data.plant.tank) × Covered self.now.basis.now.data fraction mass }
        ensures { LeastOfRun self.now.basis.now.data fraction i (i + 1) result }
    {
        let tank = self.tank(i)?;
        let volume = reactor_volume(mass, ReactorSolids::new(u64::from(tank.solids)));
        Some(Key {
            total: volume + u64::from(tank.volume),
            fraction,
            return_ratio: LEAST_RATIO + i / 6,
            thickening: LEAST_TIME + i % 6,
        })
    }

    // The least key at a covered fraction over the tanks from one place of the table on, before another: the inner loop of `fractions`,
    // which document 01 names, for a part of a fraction.
    pub fn run(&self, mass: SludgeMass, fraction: u32, from: u32, to: u32) -> Option<Key>
        requires { (from ≤ to) × (to ≤ per_fraction self.now.basis.now.data.plant.tank) × Covered self.now.basis.now.data fraction mass }
        ensures { LeastOfRun self.now.basis.now.data fraction from to result }
    {
        let mut best = None;
        'tank: for i in from..to {
            best = first_of(best, self.key(mass, fraction, i));
        }
        best
    }

    // The least key over the fractions from one on, before another. A fraction that is not covered, or that is no lighter than a
    // covered one before it, is passed over. Document 01 names the form: nested labelled loops.
    pub fn fractions(&self, first: u32, past: u32) -> Option<Key>
        requires { (least_fraction ≤ first) × (first ≤ past) × (past ≤ most_fraction + 1) }
        ensures { LeastOfFractions self.now.basis.now.data first past result }
    {
        let count = per_fraction(self.basis.data.plant.tank);
        let mut best = None;
        let mut lightest: Option<SludgeMass> = None;
        'fraction: for f in first..past {
            let Some(mass) = kept_mass(self.basis, GridFraction::new(u64::from(f))) else {
                continue 'fraction;
            };
            if let Some(least) = lightest
                && least.get() <= mass.get()
            {
                continue 'fraction;
            }
            lightest = Some(mass);
            let mut of_fraction = None;
            'tank: for i in 0..count {
                of_fraction = first_of(of_fraction, self.key(mass, f, i));
            }
            best = lesser(best, of_fraction);
        }
        best
    }
}
