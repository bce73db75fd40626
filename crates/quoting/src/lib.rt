// The calls for a price: a request's bytes in; out the answer's number, and on the page the figures of the sheet and its price. The
// layout is C's: each figure is read by the number of its word.
#![tactic(auto)]

ghost use Rattle.std.specs.Prelude.{◌≡◌, ◌+◌, ◌*◌, ◌≤◌, ◌<◌, length, Ok};
ghost use Rattle.words.specs.Bytes.{word};
ghost use Rattle.rules.specs.Answers.{price_figures};
ghost use Rattle.rules.specs.Limits.{most_bands};
ghost use Rattle.request.specs.Frames.{data_words, candidate_words};
ghost use Rattle.putting.specs.Replies.{replied};
ghost use Rattle.quoting.specs.Quotes.{tariff_words, asked_tariff, price_put, ChosenAndPriced, examined_and_priced};

use putting::Reply;
use request::Fault;
use rules::{Band, PricedSheet, Refusal, Tariff};
use std::array;

// Own words of a tariff: the number of bands, six limits, six prices and the surcharge.
const TARIFF_WORDS: usize = 14;

// How many figures a priced answer has: the sheet's and the price.
const PRICE_FIGURES: usize = 16;

// A band of the tariff that stands in a request from a word on: the limits of all bands come first, then their prices.
fn band(bytes: &[u8], at: usize, k: usize) -> Band
    requires { (at ≤ data_words + candidate_words) × (4 * (at + tariff_words) ≤ length bytes.now) × (k < most_bands) }
    ensures { result ≡ record { limit = word bytes.now (at + 1 + k); price = word bytes.now (at + 7 + k) } }
{
    Band {
        limit: words::word(bytes, at + 1 + k),
        price: words::word(bytes, at + 7 + k),
    }
}

// The tariff that stands in a request from a word on.
fn tariff_of(bytes: &[u8], at: usize) -> Tariff
    requires { (at ≤ data_words + candidate_words) × (4 * (at + tariff_words) ≤ length bytes.now) }
    ensures { result ≡ asked_tariff bytes.now at }
{
    Tariff {
        count: words::word(bytes, at),
        bands: array::from_fn(|k| band(bytes, at, k)),
        surcharge: words::word(bytes, at + 13),
    }
}

// The figures of a priced answer: the sheet's, then the price; zeros where it is refused.
fn price_figures(answer: Result<PricedSheet, Refusal>) -> [u64; PRICE_FIGURES]
    ensures { result ≡ price_figures answer }
{
    let mut figures = [0; PRICE_FIGURES];
    if let Ok(priced) = answer {
        words::store(&mut figures, 0, &listing::figures(priced.sheet));
        figures[15] = priced.price;
    }
    figures
}

// Writes the figures of a priced answer on the page.
fn put_price(answer: Result<PricedSheet, Refusal>, page: &mut [u8]) -> Reply
    ensures { replied (Ok result) page.new ≡ price_put answer page.old }
{
    putting::put_figures(answer, &price_figures(answer), page)
}

// The price of the design chosen, or what is wrong with a malformed request.
pub fn choose(request: &[u8], page: &mut [u8]) -> Result<Reply, Fault>
    ensures { ChosenAndPriced request.now page.old (replied result page.new) }
{
    let data = request::decode(request, TARIFF_WORDS)?;
    let tariff = tariff_of(request, request::DATA_WORDS);
    let answer = pricing::choose(data.plant, data.readings, tariff);
    Ok(put_price(answer, page))
}

// The price of a candidate examined, or what is wrong with a malformed request.
#[tactic(auto, unfolding(crate::specs::Quotes::examined_and_priced, putting::specs::Outcomes::on_data))]
pub fn examine(request: &[u8], page: &mut [u8]) -> Result<Reply, Fault>
    ensures { replied result page.new ≡ examined_and_priced request.now page.old }
{
    let data = request::decode(request, request::CANDIDATE_WORDS + TARIFF_WORDS)?;
    let candidate = request::candidate(request);
    let tariff = tariff_of(request, request::DATA_WORDS + request::CANDIDATE_WORDS);
    let answer = pricing::examine(data.plant, data.readings, candidate, tariff);
    Ok(put_price(answer, page))
}
