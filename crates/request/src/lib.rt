// A request's bytes decoded by the layout of the newest version, or found malformed. The layout is C's: each figure is read by the
// number of its word.
#![tactic(auto)]

ghost use Rattle.std.specs.Prelude.{◌≡◌, ◌+◌, ◌*◌, ◌≤◌, leb, length, OnOk};
ghost use Rattle.request.specs.declared.Fault.TheVariants.{Kind};
ghost use Rattle.request.specs.Kinds.{last_reading, reading_of, where_known};
ghost use Rattle.request.specs.Frames.{plant_words, term_words, consent_words, data_words, request_length, longest_request, candidate_words, works_words, line_words};
ghost use Rattle.request.specs.Frames.{frame_of, fault_number};
ghost use Rattle.request.specs.Layout.{plant_of, readings_of, plant_kinds_known, reading_kinds_known, decode, asked_candidate, asked_split, asked_line};
ghost use Rattle.request.specs.ConsentLayout.{date_of, term_of, consent_of, decode_inquiry};

use rules::{
    Candidate, Consent, Date, MOST_LINES, MOST_TERMS, Plant, Precipitant, PrimarySettling, Process,
    Reading, Readings, Removal, Split, TankFlow, Term, UnknownKind, Way,
};
use std::array;

// What every request with plant data holds besides its call's own words.
#[derive(Clone, Copy)]
pub struct Data {
    pub plant: Plant,
    pub readings: Readings,
}

// What is wrong with a malformed request, by the number that it is answered by: its length, its version, or a kind's code. The
// version is tested first, where there is one.
#[derive(Clone, Copy, Debug, PartialEq, Eq)]
pub enum Fault {
    Length = 101,
    Version = 102,
    Kind = 103,
}

impl From<UnknownKind> for Fault {
    ghost from_gives = { λ _ fault. fault ≡ Kind };

    fn from(_code: UnknownKind) -> Fault {
        Fault::Kind
    }
}

// What a request for the target of a date holds.
#[derive(Clone, Copy)]
pub struct Inquiry {
    pub consent: Consent,
    pub date: Date,
}

// The newest version, the only one that is answered.
const VERSION: u32 = 4;

// The words before the consent's: version, plant, readings and dose.
const PLANT_WORDS: usize = 30;

// The words of a term: first and last day, temperature and target.
const TERM_WORDS: usize = 6;

// The words of the consent: the number of terms, and four terms.
const CONSENT_WORDS: usize = 1 + MOST_TERMS * TERM_WORDS;

// The way's word, after the consent's.
const WAY_WORD: usize = PLANT_WORDS + CONSENT_WORDS;

// The words of the data: those, and the way's.
pub const DATA_WORDS: usize = WAY_WORD + 1;

// The date's words in a request for the target of a date, after version and consent.
const DATE_WORD: usize = 1 + CONSENT_WORDS;

// The words of such a request: those before the date, month and day.
const INQUIRY_WORDS: usize = DATE_WORD + 2;

// The own words of a call that is asked of a candidate.
pub const CANDIDATE_WORDS: usize = 3;

// The own words of a call that is asked of a works: the number of lines and eight shares.
pub const WORKS_WORDS: usize = 1 + MOST_LINES;

// The own words of a call that is asked of a line of a works: those, and its number.
pub const LINE_WORDS: usize = WORKS_WORDS + 1;

// The bytes of the longest request.
pub const LONGEST_REQUEST: usize = 4_096;

// A reading by its kind's code and its second word, the bits of an f32 or a head count: no `TryFrom`, since it is of two words.
fn reading(code: u32, value: u32) -> Result<Reading, Fault>
    ensures { result ≡ where_known (leb code last_reading) (reading_of code value) }
{
    match code {
        0 => Ok(Reading::Measured(words::float(value))),
        1 => Ok(Reading::Below(words::float(value))),
        2 => Ok(Reading::Heads(value)),
        _ => Err(Fault::Kind),
    }
}

// The plant, words 1 to 18 and 29, with its consent and the code of its way.
fn plant(words: [u32; PLANT_WORDS], consent: Consent, way: u32) -> Result<Plant, Fault>
    ensures { result ≡ where_known (plant_kinds_known words way) (plant_of words consent way) }
{
    Ok(Plant {
        load: words[1],
        flow: words[2],
        wet_weather_flow: words[3],
        design_temperature: words[4],
        aeration_temperature: words[5],
        sludge_volume_index: words[6],
        nitrate_target: words[7],
        phosphorus_target: words[8],
        carbon_peak: words[9],
        nitrogen_peak: words[10],
        oxygen_saturation: words[11],
        site_surface: words[12],
        site_depth: words[13],
        process: Process::try_from(words[14])?,
        precipitant: Precipitant::try_from(words[15])?,
        tank: TankFlow::try_from(words[16])?,
        removal: Removal::try_from(words[17])?,
        primary_settling: PrimarySettling::try_from(words[18])?,
        dose: words[29],
        consent,
        way: Way::try_from(way)?,
    })
}

// The readings, words 19 to 28.
fn readings(words: [u32; PLANT_WORDS]) -> Result<Readings, Fault>
    ensures { result ≡ where_known (reading_kinds_known words) (readings_of words) }
{
    Ok(Readings {
        bod: reading(words[19], words[20])?,
        cod: reading(words[21], words[22])?,
        solids: reading(words[23], words[24])?,
        nitrogen: reading(words[25], words[26])?,
        phosphorus: reading(words[27], words[28])?,
    })
}

// A day: two words, month and day.
fn date(bytes: &[u8], at: usize) -> Date
    requires { (at ≤ data_words) × (4 * (at + 2) ≤ length bytes.now) }
    ensures { result ≡ date_of bytes.now at }
{
    Date {
        month: words::word(bytes, at),
        day: words::word(bytes, at + 1),
    }
}

// A term: six words, first and last day, temperature and target.
fn term(bytes: &[u8], at: usize) -> Term
    requires { (at + term_words ≤ data_words) × (4 * (at + term_words) ≤ length bytes.now) }
    ensures { result ≡ term_of bytes.now at }
{
    Term {
        first: date(bytes, at),
        last: date(bytes, at + 2),
        temperature: words::word(bytes, at + 4),
        nitrate_target: words::word(bytes, at + 5),
    }
}

// A consent: the number of terms, and four terms.
fn consent(bytes: &[u8], at: usize) -> Consent
    requires { (at ≤ plant_words) × (4 * (at + consent_words) ≤ length bytes.now) }
    ensures { result ≡ consent_of bytes.now at }
{
    Consent {
        count: words::word(bytes, at),
        terms: array::from_fn(|i| term(bytes, at + 1 + TERM_WORDS * i)),
    }
}

// A request of the newest version and of so many words, or what is wrong with it.
#[tactic(auto, unfolding(crate::specs::Frames::frame_of))]
fn framed(bytes: &[u8], words: usize) -> Result<(), Fault>
    requires { 4 * words ≤ longest_request }
    ensures frame { result ≡ frame_of bytes.now words }
    ensures whole { OnOk result (length bytes.now ≡ 4 * words) }
{
    if bytes.len() < 4 {
        return Err(Fault::Length);
    }
    if words::word(bytes, 0) != VERSION {
        return Err(Fault::Version);
    }
    if bytes.len() != 4 * words {
        return Err(Fault::Length);
    }
    Ok(())
}

// The data of a request for a call with so many own words.
#[tactic(auto, unfolding(crate::specs::Layout::decode, crate::specs::Layout::decode_words))]
pub fn decode(bytes: &[u8], own: usize) -> Result<Data, Fault>
    requires { request_length own ≤ longest_request }
    ensures data { result ≡ decode bytes.now own }
    ensures whole { OnOk result (length bytes.now ≡ request_length own) }
{
    framed(bytes, DATA_WORDS + own)?;
    let mut words = [0; PLANT_WORDS];
    words::read_words(bytes, &mut words);
    let consent = consent(bytes, PLANT_WORDS);
    let way = words::word(bytes, WAY_WORD);
    Ok(Data {
        plant: plant(words, consent, way)?,
        readings: readings(words)?,
    })
}

// The terms and the date of a request for the target in force.
#[tactic(auto, unfolding(crate::specs::ConsentLayout::decode_inquiry))]
pub fn decode_inquiry(bytes: &[u8]) -> Result<Inquiry, Fault>
    ensures { result ≡ decode_inquiry bytes.now }
{
    framed(bytes, INQUIRY_WORDS)?;
    Ok(Inquiry {
        consent: consent(bytes, 1),
        date: date(bytes, DATE_WORD),
    })
}

// The candidate that a call is asked of: the call's own words, which come after the data.
pub fn candidate(bytes: &[u8]) -> Candidate
    requires { request_length candidate_words ≤ length bytes.now }
    ensures { result ≡ asked_candidate bytes.now }
{
    Candidate {
        fraction: words::word(bytes, DATA_WORDS),
        return_ratio: words::word(bytes, DATA_WORDS + 1),
        thickening: words::word(bytes, DATA_WORDS + 2),
    }
}

// How a works is split, by the call's own words.
pub fn split(bytes: &[u8]) -> Split
    requires { request_length works_words ≤ length bytes.now }
    ensures { result ≡ asked_split bytes.now }
{
    Split {
        count: words::word(bytes, DATA_WORDS),
        shares: array::from_fn(|i| words::word(bytes, DATA_WORDS + 1 + i)),
    }
}

// The number of the line that is asked for.
pub fn line_number(bytes: &[u8]) -> u32
    requires { request_length line_words ≤ length bytes.now }
    ensures { result ≡ asked_line bytes.now }
{
    words::word(bytes, DATA_WORDS + WORKS_WORDS)
}

// The number that a malformed request is answered by: the number of the fault's variant, under the name of the definition.
pub fn fault_number(fault: Fault) -> u32
    ensures { result ≡ fault_number fault }
{
    fault as u32
}
