// Figures within their limits, which no function of a figure asks for.
ghost use Rattle.std.specs.Prelude.{◌≡◌, ℕ};
ghost use Rattle.rules.specs.Ranges.{Between};

use std::marker::Model;

// A figure from the least to the most, both included. A clause sees the number.
#[derive(Clone, Copy)]
pub struct Bounded<const LEAST: u64, const MOST: u64> {
    figure: u64,
}

impl<const LEAST: u64, const MOST: u64> Model for Bounded<LEAST, MOST> {
    ghost Value = { ℕ };

    ghost view = { λ b. b.figure };

    ghost invariant = { λ b. Between LEAST MOST b.figure };

    ghost inverse = { λ n. record { figure = n } };
}

impl<const LEAST: u64, const MOST: u64> Bounded<LEAST, MOST> {
    pub fn new(figure: u64) -> Bounded<LEAST, MOST>
        requires { Between LEAST MOST figure }
        ensures { result ≡ figure }
    {
        Bounded { figure }
    }

    pub fn get(self) -> u64
        ensures { (result ≡ self.entry) × Between LEAST MOST result }
    {
        self.figure
    }
}

// The ends of the grid, of the index and of the temperatures as figures, which have 64 bits.
const FRACTION_LEAST: u64 = crate::LEAST_FRACTION as u64;

const FRACTION_MOST: u64 = crate::MOST_FRACTION as u64;

const RATIO_LEAST: u64 = crate::LEAST_RATIO as u64;

const RATIO_MOST: u64 = crate::MOST_RATIO as u64;

const TIME_LEAST: u64 = crate::LEAST_TIME as u64;

const TIME_MOST: u64 = crate::MOST_TIME as u64;

const INDEX_LEAST: u64 = crate::LEAST_INDEX as u64;

const INDEX_MOST: u64 = crate::MOST_INDEX as u64;

const TEMPERATURE_LEAST: u64 = crate::LEAST_TERM_TEMPERATURE as u64;

const TEMPERATURE_MOST: u64 = crate::MOST_TEMPERATURE as u64;

// Limits of figures: the types below and the laws over the definitions (`rules/proofs/FigureBounds.antt`) go by these. The solids' least,
// the least depth and the largest settling volume and E' have names for the definitions besides (`rules/specs/Limits.antt`).
pub const MOST_AGE: u64 = 20_000;

pub const MOST_NITROGEN: u64 = 500_000;

pub const MOST_REMOVES: u64 = 569_000_000;

pub const MOST_REMOVED_BY_DOSE: u64 = 100_000;

pub const MOST_SLUDGE: u64 = 1_500_000_000;

pub const MOST_MASS: u64 = 30_000_000;

pub const LEAST_BOTTOM: u64 = 6_900;

pub const MOST_BOTTOM: u64 = 27_200;

pub const LEAST_RETURNED: u64 = 3_450;

pub const LEAST_SOLIDS: u64 = 790;

pub const MOST_SOLIDS: u64 = 13_600;

pub const MOST_REACTOR_SOLIDS: u64 = 16_400;

pub const MOST_SLUDGE_VOLUME: u64 = 679;

pub const MOST_SURFACE: u64 = 70_000;

pub const LEAST_DEPTH: u64 = 3_000;

pub const MOST_DEPTH: u64 = 20_000;

pub const MOST_SETTLING_VOLUME: u64 = 1_400_000;

pub const MOST_OXYGEN: u64 = 164_000_000;

// Q of the plant data, m3/d.
pub type DailyFlow = Bounded<1, 200_000>;

// f, thousandths; r, hundredths; h, tenths of an hour, of the grid of either flow.
pub type GridFraction = Bounded<FRACTION_LEAST, FRACTION_MOST>;

pub type GridRatio = Bounded<RATIO_LEAST, RATIO_MOST>;

pub type GridTime = Bounded<TIME_LEAST, TIME_MOST>;

// I of a sludge that does not bulk, l/kg.
pub type SludgeIndex = Bounded<INDEX_LEAST, INDEX_MOST>;

// The temperature of the design, of aeration or of a term, degrees.
pub type Temperature = Bounded<TEMPERATURE_LEAST, TEMPERATURE_MOST>;

// SF, hundredths.
pub type SafetyFactor = Bounded<145, 180>;

// a and t, thousandths of a day.
pub type SludgeAge = Bounded<1, MOST_AGE>;

// F, millionths.
pub type DecayFactor = Bounded<0, 1_420_000>;

// U, thousandths of a day; also of the older sludge of the standard's tables.
pub type CorrectedAge = Bounded<0, 42_600>;

// W and D, mg/m3.
pub type Nitrogen = Bounded<0, MOST_NITROGEN>;

// K × C or what stands for it.
pub type OwnRemoval = Bounded<0, MOST_REMOVES>;

// Nitrate that the dose removes, mg/m3.
pub type DoseRemoval = Bounded<0, MOST_REMOVED_BY_DOSE>;

// The parts of S that carbon and phosphorus make, and S, g/d.
pub type CarbonSludge = Bounded<0, 1_360_000_000>;

pub type PhosphorusSludge = Bounded<0, 136_000_000>;

pub type DailySludge = Bounded<0, MOST_SLUDGE>;

// M, kg.
pub type SludgeMass = Bounded<0, MOST_MASS>;

// c, ten-thousandths; B and R, g/m3.
pub type ThickeningRoot = Bounded<12_599, 13_572>;

pub type BottomSludge = Bounded<LEAST_BOTTOM, MOST_BOTTOM>;

pub type ReturnSludge = Bounded<LEAST_RETURNED, MOST_BOTTOM>;

// E and E', g/m3.
pub type MixedSolids = Bounded<LEAST_SOLIDS, MOST_SOLIDS>;

pub type ReactorSolids = Bounded<LEAST_SOLIDS, MOST_REACTOR_SOLIDS>;

// V, l/m3.
pub type DilutedVolume = Bounded<1, MOST_SLUDGE_VOLUME>;

// q, mm/h.
pub type OverflowRate = Bounded<720, 2_000>;

// A, m2; H, mm; the settling volume, m3.
pub type SettlingSurface = Bounded<1, MOST_SURFACE>;

pub type SettlingDepth = Bounded<LEAST_DEPTH, MOST_DEPTH>;

pub type SettlingVolume = Bounded<1, MOST_SETTLING_VOLUME>;

// Oxygen for carbon and for nitrification, g/d, and hourly oxygen, g/h.
pub type CarbonOxygen = Bounded<0, 880_000_000>;

pub type NitrificationOxygen = Bounded<0, 430_000_000>;

pub type HourlyOxygen = Bounded<0, MOST_OXYGEN>;
