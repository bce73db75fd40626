// The calls that a host makes: each answers any arguments, and its contract equates its whole outcome with document 01;
// once more, as `numbered`, it says what the number, the sheet, the figures and the count are. That clause and the columns are
// what a call here adds to the function that it hands on to. Plant and readings come apart, as document 01 has them.
#![tactic(auto)]

ghost use Rattle.std.specs.Prelude.{◌≡◌, ◌≤◌};
ghost use Rattle.rules.specs.Examining.{examine};
ghost use Rattle.rules.specs.Choosing.{Chosen};
ghost use Rattle.rules.specs.Explaining.{explain};
ghost use Rattle.rules.specs.Answers.{answer_number, answer_sheet, value_or_zero, written_count, price_sheet, price_value};
ghost use Rattle.rules.specs.Explanations.{explanation_figures};
ghost use Rattle.rules.specs.Consent.{target_on};
ghost use Rattle.rules.specs.TargetOutcome.{TargetOutcome};
ghost use Rattle.rules.specs.Census.{census, census_counts, CensusOutcome};
ghost use Rattle.rules.specs.DayLog.{two_week_load, load_of};
ghost use Rattle.rules.specs.DayLogOutcome.{LoadOutcome};
ghost use Rattle.rules.specs.Listing.{listing_length, longest_listing};
ghost use Rattle.rules.specs.Outcomes.{Examined, ChosenOutcome, ExplainedOutcome, WritingOutcome, ByLength};
ghost use Rattle.rules.specs.TwoColumns.{TwoColumns};
ghost use Rattle.rules.specs.Lines.{LineAnswered};
ghost use Rattle.rules.specs.Works.{WorksChosen, works_sheets};
ghost use Rattle.rules.specs.WorksOutcome.{WorksOutcome, LineOutcome, WorksColumns, LineColumns};
ghost use Rattle.rules.specs.Existing.{BuiltAnswered};
ghost use Rattle.rules.specs.ExistingOutcome.{BuiltOutcome};
ghost use Rattle.rules.specs.Price.{examine_priced, ChosenPriced};
ghost use Rattle.rules.specs.PriceOutcome.{PricedExamined, PricedChosen, PriceColumns};
ghost use Rattle.listing.specs.Pages.{Writes};

use rules::{
    ANSWER_NUMBERS, Answer, Candidate, Consent, Date, Existing, Explained, IndexSpan, Plant,
    PricedSheet, Readings, Refusal, Split, Tariff, TwoWeekLoad, Works,
};

// Demands 1 and 2: the complete sheet of a candidate, or the one refusal that is due.
pub fn examine(plant: Plant, readings: Readings, candidate: Candidate) -> Answer
    ensures value { result ≡ examine plant readings candidate }
    ensures columns { TwoColumns plant readings result }
    ensures numbered { Examined plant readings candidate (answer_number result) (answer_sheet result) }
{
    examining::examine(plant, readings, candidate)
}

// Demand 3: the least permitted design of the whole grid, or that none is permitted.
pub fn choose(plant: Plant, readings: Readings) -> Answer
    ensures chosen { Chosen plant readings result }
    ensures columns { TwoColumns plant readings result }
    ensures numbered { ChosenOutcome plant readings (answer_number result) (answer_sheet result) }
{
    choosing::choose(plant, readings)
}

// A works in several lines: every line's least design and their sums, or the refusal of the whole data or of the first refused
// line.
pub fn works(plant: Plant, readings: Readings, split: Split) -> Result<Works, Refusal>
    ensures works_chosen { WorksChosen plant readings split result }
    ensures columns { WorksColumns plant readings split result }
    ensures numbered { WorksOutcome plant readings split (answer_number result) (works_sheets result) }
{
    works::works(plant, readings, split)
}

// The answer of one line of a works by its number from 1, whatever the other lines get.
pub fn line(plant: Plant, readings: Readings, split: Split, number: u32) -> Answer
    ensures line_answered { LineAnswered plant readings split number result }
    ensures columns { LineColumns plant readings split number result }
    ensures numbered { LineOutcome plant readings split number (answer_number result) (answer_sheet result) }
{
    works::line(plant, readings, split, number)
}

// The figures that explain a candidate, whatever the rules of fraction and tank say of it.
pub fn explain(plant: Plant, readings: Readings, candidate: Candidate) -> Result<Explained, Refusal>
    ensures value { result ≡ explain plant readings candidate }
    ensures numbered { ExplainedOutcome plant readings candidate (answer_number result) (explanation_figures result) }
{
    explaining::explain(plant, readings, candidate)
}

// The census of the grid: how many candidates are permitted, and of how many each rule is the first broken.
pub fn census(plant: Plant, readings: Readings) -> Result<[u64; ANSWER_NUMBERS], Refusal>
    ensures value { result ≡ census plant readings }
    ensures numbered { CensusOutcome plant readings (answer_number result) (census_counts result) }
{
    census::census(plant, readings)
}

// Existing tanks against a moody sludge: whether each sludge volume index of a span can be won by some return ratio, or the smallest that
// cannot.
pub fn built(
    plant: Plant,
    readings: Readings,
    existing: Existing,
    span: IndexSpan,
) -> Result<Option<u32>, Refusal>
    ensures built_answered { BuiltAnswered plant readings existing span result }
    ensures numbered { BuiltOutcome plant readings existing span (answer_number result) (value_or_zero result) }
{
    existing::built(plant, readings, existing, span)
}

// The design chosen and the price of its two tanks. Demand 3 speaks of the choice, which knows no price.
pub fn choose_priced(
    plant: Plant,
    readings: Readings,
    tariff: Tariff,
) -> Result<PricedSheet, Refusal>
    ensures chosen_priced { ChosenPriced plant readings tariff result }
    ensures columns { PriceColumns plant readings result }
    ensures numbered { PricedChosen plant readings tariff (answer_number result) (price_sheet result) (price_value result) }
{
    pricing::choose(plant, readings, tariff)
}

// The sheet of a candidate and the price of its two tanks.
pub fn examine_priced(
    plant: Plant,
    readings: Readings,
    candidate: Candidate,
    tariff: Tariff,
) -> Result<PricedSheet, Refusal>
    ensures value { result ≡ examine_priced plant readings candidate tariff }
    ensures columns { PriceColumns plant readings result }
    ensures numbered { PricedExamined plant readings candidate tariff (answer_number result) (price_sheet result) (price_value result) }
{
    pricing::examine(plant, readings, candidate, tariff)
}

// The lowest nitrate target in force on a day, for any terms of a consent and any date, or that no term runs.
pub fn target_on(consent: Consent, date: Date) -> Result<Option<u32>, Refusal>
    ensures value { result ≡ target_on consent date }
    ensures numbered { TargetOutcome consent date (answer_number result) (value_or_zero result) }
{
    consents::target_on(consent, date)
}

// The highest load over 14 consecutive days of a day log, given by its bytes.
pub fn load(log: &[u8]) -> Result<TwoWeekLoad, Refusal>
    ensures value { result ≡ two_week_load log.now }
    ensures numbered { LoadOutcome log.now (answer_number result) (load_of result) }
{
    loads::two_week_load(log)
}

// The listing of an answer on a lent page: written whole, or refused with 11 and the page as it was.
pub fn write(answer: Answer, page: &mut [u8]) -> Result<usize, Refusal>
    ensures writes { Writes answer page.old page.new result }
    ensures numbered { WritingOutcome answer page.old (answer_number result) (written_count result) }
    ensures by_length { ByLength answer page.old page.new result }
{
    listing::write(answer, page)
}

// How many bytes the listing of an answer takes, without writing it.
pub fn length(answer: Answer) -> usize
    ensures value { result ≡ listing_length answer }
    ensures most { result ≤ longest_listing }
{
    listing::length(answer)
}
