// The price of the concrete: what the two tanks of a sheet cost by a tariff, band by band, and the two calls that give it with the
// sheet. The choice goes by volume and knows no price.
#![tactic(auto)]

ghost use Rattle.std.specs.Prelude.{◌≡◌, ◌*◌, ◌≤◌, T};
ghost use Rattle.rules.specs.Limits.{most_bands, most_price, most_reactor};
ghost use Rattle.rules.specs.Ranges.{VolumeBounds};
ghost use Rattle.rules.specs.Price.{volume_price, price_of, limits_rise, prices_kept, tariff_valid, priced, examine_priced, ChosenPriced};
ghost use Rattle.pricing.specs.Bands.{charge_end, AnswerVolumes};

use rules::{Answer, Candidate, Plant, PricedSheet, Readings, Refusal, Sheet, Tariff};

// The first limits rise strictly, from at least 1. A loop: each is held to the one before it.
fn limits_rise(tariff: &Tariff, n: usize) -> bool
    requires { n ≤ most_bands }
    ensures { result ≡ limits_rise tariff.now n }
{
    let mut before = 0;
    'band: for band in &tariff.bands[..n] {
        if band.limit <= before {
            return false;
        }
        before = band.limit;
    }
    true
}

// The first prices are at most 1,000,000.
fn prices_kept(tariff: &Tariff, n: usize) -> bool
    requires { n ≤ most_bands }
    ensures { result ≡ prices_kept tariff.now n }
{
    tariff.bands[..n]
        .iter()
        .all(|band| band.price <= rules::MOST_PRICE)
}

// 22 is not due: one to six bands, limits that rise but for the last band, which has none, prices and surcharge in range.
#[tactic(auto, unfolding(rules::specs::Price::tariff_valid))]
fn tariff_valid(tariff: &Tariff) -> bool
    ensures { result ≡ tariff_valid tariff.now }
{
    let count = tariff.count as usize;
    rounding::within(1, 6, tariff.count)
        && limits_rise(tariff, count - 1)
        && prices_kept(tariff, count)
        && tariff.surcharge <= rules::MOST_SURCHARGE
}

// Where a band's charge of a volume ends. The bool is a test's answer.
fn charge_end(last: bool, limit: u64, volume: u64) -> u64
    ensures { (result ≡ charge_end last limit volume) × (result ≤ volume) }
{
    if last { volume } else { limit.min(volume) }
}

// A volume's price before surcharge, band by band. The index tells the last band, which has no limit: cut off by `split_last`, the price
// band by band would be known for valid tariffs alone, and no more for those whose limits do not rise.
fn volume_price(tariff: &Tariff, volume: u64) -> u64
    requires { T (tariff_valid tariff.now) × (volume ≤ most_reactor) }
    ensures { (result ≡ volume_price tariff.now volume) × (result ≤ volume * most_price) }
{
    let count = tariff.count as usize;
    let mut charged = 0;
    let mut cost = 0;
    'band: for k in 0..count {
        let band = tariff.bands[k];
        let end = charge_end(k + 1 == count, u64::from(band.limit), volume);
        let metres = end.saturating_sub(charged);
        cost += metres * u64::from(band.price);
        charged += metres;
    }
    cost
}

// A sheet's price: reactor and settling tank by themselves, then the surcharge on their sum, rounded up once.
fn price_of(tariff: &Tariff, sheet: &Sheet) -> u64
    requires { T (tariff_valid tariff.now) × VolumeBounds sheet.now }
    ensures { result ≡ price_of tariff.now sheet.now }
{
    let reactor = volume_price(tariff, sheet.reactor);
    let settling = volume_price(tariff, sheet.settling);
    let sum = reactor + settling;
    let thousandths = sum * u64::from(tariff.surcharge);
    sum + rounding::round_up(thousandths, 1000)
}

// An answer priced: its own refusal stands; a sheet gets its price, or 22.
fn price(answer: Answer, tariff: Tariff) -> Result<PricedSheet, Refusal>
    requires { AnswerVolumes answer }
    ensures { result ≡ priced tariff answer }
{
    let sheet = answer?;
    verdicts::rule(tariff_valid(&tariff), Refusal::Tariff)?;
    Ok(PricedSheet {
        sheet,
        price: price_of(&tariff, &sheet),
    })
}

// The price of the design chosen.
pub fn choose(plant: Plant, readings: Readings, tariff: Tariff) -> Result<PricedSheet, Refusal>
    ensures { ChosenPriced plant readings tariff result }
{
    price(choosing::choose(plant, readings), tariff)
}

// The price of a candidate examined.
pub fn examine(
    plant: Plant,
    readings: Readings,
    candidate: Candidate,
    tariff: Tariff,
) -> Result<PricedSheet, Refusal>
    ensures { result ≡ examine_priced plant readings candidate tariff }
{
    price(examining::examine(plant, readings, candidate), tariff)
}
