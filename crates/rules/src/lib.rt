// The types of documents 01 and 02: plant data, lab readings, candidates, sheets and answers. The definitions over them are
// in specs/. A list is an array, with a count beside it where it may be shorter: the library for C has no heap.
#![tactic(auto)]

mod accepted;
mod bounded;
mod grid;
mod kinds;

pub use accepted::Accepted;
pub use bounded::{
    BottomSludge, Bounded, CarbonOxygen, CarbonSludge, CorrectedAge, DailyFlow, DailySludge,
    DecayFactor, DilutedVolume, DoseRemoval, GridFraction, GridRatio, GridTime, HourlyOxygen,
    MixedSolids, NitrificationOxygen, Nitrogen, OverflowRate, OwnRemoval, PhosphorusSludge,
    ReactorSolids, ReturnSludge, SafetyFactor, SettlingDepth, SettlingSurface, SettlingVolume,
    SludgeAge, SludgeIndex, SludgeMass, Temperature, ThickeningRoot,
};
pub use grid::GridCandidate;
pub use kinds::UnknownKind;

// The ends of the grid, and the figures' ends that the code names in several places.
pub const LEAST_FRACTION: u32 = 200;

pub const MOST_FRACTION: u32 = 500;

pub const LEAST_RATIO: u32 = 30;

pub const MOST_RATIO: u32 = 100;

pub const LEAST_TIME: u32 = 20;

pub const MOST_TIME: u32 = 25;

pub const LEAST_TEMPERATURE: u32 = 10;

pub const MOST_TEMPERATURE: u32 = 20;

pub const LEAST_TERM_TEMPERATURE: u32 = 4;

// The sludge volume indices of a sludge that does not bulk.
pub const LEAST_INDEX: u32 = 50;

pub const MOST_INDEX: u32 = 180;

pub const LEAST_NITRATE_TARGET: u32 = 1_000;

pub const MOST_NITRATE_TARGET: u32 = 50_000;

pub const MOST_TERMS: usize = 4;

// Step-feed denitrification in two or in three steps.
#[derive(Clone, Copy)]
pub enum Steps {
    Two,
    Three,
}

// The denitrification process.
#[derive(Clone, Copy)]
pub enum Process {
    PreAnoxic,
    Simultaneous,
    Intermittent,
    StepFeed(Steps),
}

// The precipitant for phosphorus.
#[derive(Clone, Copy)]
pub enum Precipitant {
    Iron,
    Aluminium,
}

// The direction of flow through the secondary settling tank.
#[derive(Clone, Copy)]
pub enum TankFlow {
    Horizontal,
    Vertical,
}

// How the settled sludge is removed from the tank's bottom.
#[derive(Clone, Copy)]
pub enum Removal {
    Scraper,
    Suction,
    Hopper,
}

// The retention in primary settling: a column of Table 1.
#[derive(Clone, Copy)]
pub enum PrimarySettling {
    None,
    Short,
    Long,
}

// What sludge and oxygen are reckoned from.
#[derive(Clone, Copy)]
pub enum Way {
    Bod,
    Cod,
}

// A day of the year. A later day is the larger one.
#[derive(Clone, Copy, PartialEq, Eq, PartialOrd, Ord, Default)]
pub struct Date {
    pub month: u32,
    pub day: u32,
}

// A term of the consent: it runs from its first to its last day, both included; over the new year where the last day comes
// before the first.
#[derive(Clone, Copy, Default)]
pub struct Term {
    pub first: Date,
    pub last: Date,
    // lowest temperature, degrees
    pub temperature: u32,
    // mg/m3
    pub nitrate_target: u32,
}

// The terms of the consent: the first of the four entries, as many as the count says.
#[derive(Clone, Copy)]
pub struct Consent {
    pub count: u32,
    pub terms: [Term; MOST_TERMS],
}

// Plant data and site, each figure in document 01's unit.
#[derive(Clone, Copy)]
pub struct Plant {
    // L, raw BOD5 load, kg/d
    pub load: u32,
    // Q, daily flow, m3/d
    pub flow: u32,
    // Qw, wet weather flow, m3/h
    pub wet_weather_flow: u32,
    // T, design temperature, degrees
    pub design_temperature: u32,
    // Ta, aeration temperature, degrees
    pub aeration_temperature: u32,
    // I, l/kg
    pub sludge_volume_index: u32,
    // N3, mg/m3
    pub nitrate_target: u32,
    // P3, mg/m3
    pub phosphorus_target: u32,
    // fC, hundredths
    pub carbon_peak: u32,
    // fN, hundredths
    pub nitrogen_peak: u32,
    // Cs, mg/m3
    pub oxygen_saturation: u32,
    // the largest settling surface that the site has room for, m2
    pub site_surface: u32,
    // the largest depth that the site allows, mm
    pub site_depth: u32,
    pub process: Process,
    pub precipitant: Precipitant,
    pub tank: TankFlow,
    pub removal: Removal,
    pub primary_settling: PrimarySettling,
    // external carbon, mg/m3 as COD
    pub dose: u32,
    pub consent: Consent,
    pub way: Way,
}

// What a lab reading is of.
#[derive(Clone, Copy)]
pub enum Parameter {
    Bod,
    Cod,
    Solids,
    Nitrogen,
    Phosphorus,
}

// A lab reading: measured in mg/l, below a limit in mg/l, or taken from a head count.
#[derive(Clone, Copy)]
pub enum Reading {
    Measured(f32),
    Below(f32),
    Heads(u32),
}

// The five readings, in document 01's order.
#[derive(Clone, Copy)]
pub struct Readings {
    pub bod: Reading,
    pub cod: Reading,
    pub solids: Reading,
    pub nitrogen: Reading,
    pub phosphorus: Reading,
}

// The accepted results of the readings, mg/m3: C, COD, X, N and P. No function is of readings and results alike, so that they have no
// type in common.
#[derive(Clone, Copy)]
pub struct Concentrations {
    pub bod: u64,
    pub cod: u64,
    pub solids: u64,
    pub nitrogen: u64,
    pub phosphorus: u64,
}

// Document 01's "candidate": a denitrification fraction f in thousandths, a return ratio r in hundredths, and a
// thickening time h in tenths of an hour.
#[derive(Clone, Copy)]
pub struct Candidate {
    pub fraction: u32,
    pub return_ratio: u32,
    pub thickening: u32,
}

// The figures that depend on the fraction alone.
#[derive(Clone, Copy)]
pub struct Reactor {
    // f, thousandths
    pub fraction: GridFraction,
    // t, thousandths of a day
    pub age: SludgeAge,
    // W, nitrogen to nitrify, mg/m3
    pub nitrified: Nitrogen,
    // D, nitrate to denitrify, mg/m3
    pub denitrified: Nitrogen,
    // K × C, thousandths of the nitrate that the tank removes with its own carbon, mg/m3; in the way by COD what stands for it
    pub removes: OwnRemoval,
    // nitrate that the dose removes, mg/m3
    pub removed_by_dose: DoseRemoval,
    // S, g/d
    pub sludge: DailySludge,
    // M, kg
    pub mass: SludgeMass,
}

// The figures that depend on the return ratio and the thickening time alone.
#[derive(Clone, Copy)]
pub struct Settling {
    // E, g/m3
    pub solids: MixedSolids,
    // V, diluted sludge volume, l/m3
    pub sludge_volume: DilutedVolume,
    // A, m2
    pub surface: SettlingSurface,
    // H, mm
    pub depth: SettlingDepth,
    // m3
    pub volume: SettlingVolume,
}

// The figures of aeration and recirculation.
#[derive(Clone, Copy)]
pub struct Aeration {
    // thousandths of the daily flow
    pub recirculation: u64,
    // hourly oxygen, g/h
    pub oxygen: u64,
    // oxygen transfer, g/h
    pub transfer: u64,
}

// Document 01's "sheet": the fifteen figures of a listing, in its order.
#[derive(Clone, Copy, Default)]
pub struct Sheet {
    pub fraction: u64,
    pub return_ratio: u64,
    pub thickening: u64,
    pub age: u64,
    pub sludge: u64,
    pub mass: u64,
    pub solids: u64,
    pub reactor: u64,
    pub surface: u64,
    pub depth: u64,
    pub settling: u64,
    pub total: u64,
    pub recirculation: u64,
    pub oxygen: u64,
    pub transfer: u64,
}

// The refusals, by the paper's numbers.
#[derive(Clone, Copy, Debug, PartialEq, Eq)]
pub enum Refusal {
    PlantData = 1,
    NoNumber = 2,
    ReadingRange = 3,
    CodRatio = 4,
    NoDesign = 5,
    OffGrid = 6,
    Nitrate = 7,
    Solids = 8,
    Surface = 9,
    Depth = 10,
    ShortPage = 11,
    DayLog = 12,
    DayValue = 13,
    Terms = 14,
    Nitrification = 15,
    TermNitrate = 16,
    Bulking = 17,
    Lines = 18,
    Advance = 19,
    Span = 20,
    BuiltSize = 21,
    Tariff = 22,
}

// What examining and choosing answer: a complete sheet, or one refusal.
pub type Answer = Result<Sheet, Refusal>;

// The figures that explain a candidate in one term of the consent.
#[derive(Clone, Copy, Default)]
pub struct TermExplained {
    // up(1000a / t): what nitrification needs of the sludge age, thousandths
    pub aerobic_share: u64,
    // the fraction in the term, thousandths
    pub fraction: u64,
    // the term's D, nitrate to be removed, mg/m3
    pub denitrified: u64,
    // nitrate that the tank removes with the tank's BOD, mg/m3
    pub removed_by_bod: u64,
    // nitrate that the tank can remove, the dose's part included, mg/m3
    pub removable: u64,
}

// The figures that explain a candidate, whatever the rules 7 to 10, 15 and 16 say of it.
#[derive(Clone, Copy)]
pub struct Explained {
    // D, nitrate to be removed, mg/m3
    pub denitrified: u64,
    // nitrate that the tank removes with the tank's BOD, and with the dose, mg/m3
    pub removed_by_bod: u64,
    pub removed_by_dose: u64,
    // nitrate that the tank can remove, mg/m3: their sum
    pub removable: u64,
    // E, g/m3
    pub solids: u64,
    // V, l/m3
    pub sludge_volume: u64,
    // A, m2
    pub surface: u64,
    // H, mm
    pub depth: u64,
    // the first of the rules 7, 15, 16 and 8 to 10 that is broken, if any
    pub verdict: Result<(), Refusal>,
    // in each term of the consent; zeros past their count
    pub terms: [TermExplained; MOST_TERMS],
}

// How many numbers a census has counts for: every answer's number is below it.
pub const ANSWER_NUMBERS: usize = 32;

// The most lines of a works.
pub const MOST_LINES: usize = 8;

// How a works is split into lines: how many there are, and each one's share in thousandths. Entries past the count are not
// looked at.
#[derive(Clone, Copy)]
pub struct Split {
    pub count: u32,
    pub shares: [u32; MOST_LINES],
}

// Figures of the sheets of a works' lines, added up.
#[derive(Clone, Copy, Default)]
pub struct Sums {
    pub sludge: u64,
    pub mass: u64,
    pub surface: u64,
    pub reactor: u64,
    pub settling: u64,
    pub total: u64,
    pub oxygen: u64,
    pub transfer: u64,
}

// What a works whose lines all have a sheet is answered with: the sums and the sheets.
#[derive(Clone, Copy)]
pub struct Works {
    pub sums: Sums,
    // of the lines in order; zeros past their count
    pub sheets: [Sheet; MOST_LINES],
}

// The most candidates that one advance of a sweep asks for.
pub const MOST_ADVANCE: u32 = 1_000;

// What an advance of a sweep that is not refused answers: that the sweep is unfinished, with the best permitted candidate so far, or
// what choosing answers.
#[derive(Clone, Copy)]
pub enum Progress {
    Unfinished(Option<Candidate>),
    Finished(Answer),
}

// What is built of a standing works, and the fraction and the thickening time that it is operated with.
#[derive(Clone, Copy)]
pub struct Existing {
    // reactor volume, m3
    pub reactor: u32,
    // settling surface, m2
    pub surface: u32,
    // settling depth, mm
    pub depth: u32,
    // f, thousandths
    pub fraction: u32,
    // h, tenths of an hour
    pub thickening: u32,
}

// The sludge volume indices from the least to the most, l/kg.
#[derive(Clone, Copy)]
pub struct IndexSpan {
    pub least: u32,
    pub most: u32,
}

// The most bands of a tariff.
pub const MOST_BANDS: usize = 6;

// The most that a cubic metre costs, cents, and the largest surcharge, thousandths.
pub const MOST_PRICE: u32 = 1_000_000;

pub const MOST_SURCHARGE: u32 = 500;

// A band of a tariff.
#[derive(Clone, Copy, Default)]
pub struct Band {
    // m3
    pub limit: u32,
    // cents per m3
    pub price: u32,
}

// What concrete costs by the cubic metre: as many bands as the count says, each up to its limit; the last of them has no limit. Bands
// past the count are not looked at.
#[derive(Clone, Copy)]
pub struct Tariff {
    pub count: u32,
    pub bands: [Band; MOST_BANDS],
    // thousandths of the sum
    pub surcharge: u32,
}

// A sheet and what its two tanks cost.
#[derive(Clone, Copy)]
pub struct PricedSheet {
    pub sheet: Sheet,
    // cents
    pub price: u64,
}

// A day of the day log.
#[derive(Clone, Copy)]
pub struct Day {
    // m3/d
    pub flow: f32,
    // mg/l
    pub bod: f32,
}

// A load over 14 consecutive days.
#[derive(Clone, Copy, Default)]
pub struct TwoWeekLoad {
    // the sum of the days' loads: products of thousandths of m3/d and of mg/l
    pub sum: u64,
    // its first day, counted from 1
    pub day: u64,
}
