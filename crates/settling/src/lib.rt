// The secondary settling tank: what depends on the return ratio and the thickening time alone.
#![tactic(auto)]

ghost use Rattle.std.specs.Prelude.{◌≡◌, ◌*◌, ◌≤◌, ◌<◌, ℕ};
ghost use Rattle.rules.specs.Ranges.{Between};
ghost use Rattle.rules.specs.SettlingSteps.{cube_root, thickening_root, return_share, return_sludge, mixed_solids, diluted_volume, solids_kept, volume_loading, largest_overflow_rate, surface_overflow_rate, settling_surface, settling_depth, settling_volume};
ghost use Rattle.rules.specs.Rules.{verdict};
ghost use Rattle.rules.specs.Examining.{tank_rules};

mod thickened;

use rules::{
    BottomSludge, DilutedVolume, GridRatio, GridTime, MixedSolids, OverflowRate, Plant, Refusal,
    Removal, ReturnSludge, Settling, SettlingDepth, SettlingSurface, SettlingVolume, SludgeIndex,
    TankFlow, ThickeningRoot,
};
pub use thickened::Thickened;

// The largest whole number whose cube is at most n, for a root below 16,384. It is at least `low` and below `high`; this span
// of 2 to the 14th possible roots is halved 14 times, until one is left. Document 01 names the form: a loop that yields the root
// by break.
#[tactic(auto, using(crate::proofs::RootSpan::halving))]
fn cube_root(n: u64) -> u64
    requires { n < 16_384 * 16_384 * 16_384 }
    ensures { result ≡ cube_root n }
{
    let mut low = 0;
    let mut high = 16_384;
    let mut left: u32 = 14;
    'halving: loop {
        if left == 0 {
            break low;
        }
        left -= 1;
        let middle = (low + high) / 2;
        if n < middle * middle * middle {
            high = middle;
        } else {
            low = middle;
        }
    }
}

// c, the root that the bottom sludge rests on, ten-thousandths
#[tactic(auto, using(crate::proofs::Limits::root_limits), unfolding(rules::specs::SettlingSteps::thickening_root))]
fn thickening_root(thickening: GridTime) -> ThickeningRoot
    ensures { result ≡ thickening_root thickening }
{
    ThickeningRoot::new(cube_root(thickening.get() * 100_000_000_000))
}

// w, the return sludge's share of the bottom sludge, tenths
#[tactic(auto, unfolding(rules::specs::SettlingSteps::return_share))]
fn return_share(removal: Removal) -> u64
    ensures { (result ≡ return_share removal) × Between 5 10 result }
{
    match removal {
        Removal::Scraper => 7,
        Removal::Suction => 5,
        Removal::Hopper => 10,
    }
}

// R, return sludge, g/m3
#[tactic(auto, using(crate::proofs::Limits::returned_limits), unfolding(rules::specs::SettlingSteps::return_sludge))]
fn return_sludge(removal: Removal, bottom: BottomSludge) -> ReturnSludge
    ensures { (result ≡ return_sludge (return_share removal) bottom) × (result ≤ bottom) }
{
    ReturnSludge::new(return_share(removal) * bottom.get() / 10)
}

// E, solids in the aeration tank, g/m3: at most half the return sludge's.
fn mixed_solids(returned: ReturnSludge, ratio: GridRatio) -> MixedSolids
    ensures { (result ≡ mixed_solids returned ratio) × (2 * result ≤ returned) }
{
    let ratio = ratio.get();
    MixedSolids::new(ratio * returned.get() / (100 + ratio))
}

// V, diluted sludge volume, l/m3
#[tactic(auto, using(crate::proofs::Limits::diluted_limits), unfolding(rules::specs::SettlingSteps::diluted_volume))]
fn diluted_volume(solids: MixedSolids, index: SludgeIndex) -> DilutedVolume
    requires { solids * index ≤ 678_600 }
    ensures { result ≡ diluted_volume solids index }
{
    DilutedVolume::new(rounding::round_up(solids.get() * index.get(), 1000))
}

// s, sludge volume surface loading rate, l/(m2 h)
#[tactic(auto, unfolding(rules::specs::SettlingSteps::volume_loading))]
fn volume_loading(tank: TankFlow) -> u64
    ensures { (result ≡ volume_loading tank) × Between 500 650 result }
{
    match tank {
        TankFlow::Horizontal => 500,
        TankFlow::Vertical => 650,
    }
}

// m, largest surface overflow rate, mm/h
#[tactic(auto, unfolding(rules::specs::SettlingSteps::largest_overflow_rate))]
fn largest_overflow_rate(tank: TankFlow) -> u64
    ensures { (result ≡ largest_overflow_rate tank) × Between 1_600 2_000 result }
{
    match tank {
        TankFlow::Horizontal => 1_600,
        TankFlow::Vertical => 2_000,
    }
}

// q, surface overflow rate, mm/h
fn surface_overflow_rate(tank: TankFlow, volume: DilutedVolume) -> OverflowRate
    ensures { result ≡ surface_overflow_rate tank volume }
{
    let rate = 1000 * volume_loading(tank) / volume.get();
    OverflowRate::new(rate.min(largest_overflow_rate(tank)))
}

// A, settling surface, m2
#[tactic(auto, using(crate::proofs::Limits::surface_limits), unfolding(rules::specs::SettlingSteps::settling_surface))]
fn settling_surface(wet: u64, rate: OverflowRate) -> SettlingSurface
    requires { Between 1 50_000 wet }
    ensures { result ≡ settling_surface wet rate }
{
    SettlingSurface::new(rounding::round_up(1000 * wet, rate.get()))
}

// H, settling depth, mm: 500 of clear water, then separation, storage and thickening; at least 3,000. The storage
// takes q · V as it is, also where q was held at m. The six figures meet in this step alone, so no struct holds them.
fn settling_depth(
    rate: OverflowRate,
    ratio: GridRatio,
    volume: DilutedVolume,
    solids: MixedSolids,
    thickening: GridTime,
    bottom: BottomSludge,
) -> SettlingDepth
    requires { 2 * solids ≤ bottom }
    ensures { result ≡ settling_depth rate ratio volume solids thickening bottom }
{
    let rate = rate.get();
    let volume = volume.get();
    // the flow that enters the tank, hundredths of the plant's
    let entering = 100 + ratio.get();
    let separation = rounding::round_up(5 * rate * entering, 1000 - volume);
    let loading = rounding::round_up(rate * volume, 1000);
    let storage = rounding::round_up(9 * loading * entering, 1000);
    let thickened = rounding::round_up(
        solids.get() * rate * entering * thickening.get(),
        1000 * bottom.get(),
    );
    SettlingDepth::new((500 + separation + storage + thickened).max(3_000))
}

// Settling volume, m3
#[tactic(auto, using(crate::proofs::Limits::volume_limits), unfolding(rules::specs::SettlingSteps::settling_volume))]
fn settling_volume(surface: SettlingSurface, depth: SettlingDepth) -> SettlingVolume
    ensures { result ≡ settling_volume surface depth }
{
    SettlingVolume::new(rounding::round_up(surface.get() * depth.get(), 1000))
}

// Needed of a candidate: E of at least 1,000 and V of at most 600.
#[tactic(auto, unfolding(rules::specs::SettlingSteps::solids_kept))]
fn solids_kept(solids: u64, volume: u64) -> bool
    ensures { result ≡ solids_kept solids volume }
{
    1_000 <= solids && volume <= 600
}

// The verdict on rules 8 to 10 by the figures that they ask of, E, V, A and H, whatever these are. The settling volume is not looked at.
pub fn figures_verdict(
    plant: &Plant,
    solids: u64,
    sludge_volume: u64,
    surface: u64,
    depth: u64,
) -> Result<(), Refusal>
    ensures { (volume : ℕ) → result ≡ verdict (tank_rules plant.now
        (record { solids = solids; sludge_volume = sludge_volume; surface = surface; depth = depth; volume = volume })) }
{
    let solids = solids_kept(solids, sludge_volume);
    let surface = surface <= u64::from(plant.site_surface);
    let depth = depth <= u64::from(plant.site_depth);
    verdicts::rule(solids, Refusal::Solids)?;
    verdicts::rule(surface, Refusal::Surface)?;
    verdicts::rule(depth, Refusal::Depth)
}

// The verdict on the tank's rules 8 to 10.
pub fn tank_verdict(plant: &Plant, settling: &Settling) -> Result<(), Refusal>
    ensures { result ≡ verdict (tank_rules plant.now settling.now) }
{
    figures_verdict(
        plant,
        settling.solids.get(),
        settling.sludge_volume.get(),
        settling.surface.get(),
        settling.depth.get(),
    )
}
