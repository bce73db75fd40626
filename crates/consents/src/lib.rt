// The terms of the consent: whether they are valid, and the lowest target in force on a day.
#![tactic(auto)]

ghost use Rattle.std.specs.Prelude.{◌≡◌};
ghost use Rattle.rules.specs.Consent.{days_of, date_valid, in_force, term_valid, consent_valid, lower_of, target_on};

use rules::{Consent, Date, Refusal, Term};

// The days of a month; 29 February is one.
#[tactic(auto, unfolding(rules::specs::Consent::days_of))]
fn days_of(month: u32) -> u32
    ensures { result ≡ days_of month }
{
    match month {
        2 => 29,
        4 | 6 | 9 | 11 => 30,
        _ => 31,
    }
}

#[tactic(auto, unfolding(rules::specs::Consent::date_valid))]
fn date_valid(date: Date) -> bool
    ensures { result ≡ date_valid date }
{
    rounding::within(1, 12, date.month) && rounding::within(1, days_of(date.month), date.day)
}

// A term runs on a day: from its first to its last, or over the new year where its last comes before its first.
#[tactic(auto, unfolding(rules::specs::Consent::in_force, rules::specs::Consent::not_after))]
fn in_force(term: &Term, date: Date) -> bool
    ensures { result ≡ in_force term.now date }
{
    let begun = term.first <= date;
    let not_over = date <= term.last;
    if term.first <= term.last {
        begun && not_over
    } else {
        begun || not_over
    }
}

// The days, the temperature and the target of a term are in their ranges.
#[tactic(auto, unfolding(rules::specs::Consent::term_valid))]
fn term_valid(term: &Term) -> bool
    ensures { result ≡ term_valid term.now }
{
    date_valid(term.first)
        && date_valid(term.last)
        && rounding::within(
            rules::LEAST_TERM_TEMPERATURE,
            rules::MOST_TEMPERATURE,
            term.temperature,
        )
        && rounding::within(
            rules::LEAST_NITRATE_TARGET,
            rules::MOST_NITRATE_TARGET,
            term.nitrate_target,
        )
}

// At most four terms, each valid.
#[tactic(auto, unfolding(rules::specs::Consent::consent_valid))]
pub fn consent_valid(consent: &Consent) -> bool
    ensures { result ≡ consent_valid consent.now }
{
    let count = consent.count as usize;
    count <= rules::MOST_TERMS && consent.terms[..count].iter().all(|term| term_valid(term))
}

// The lower of a target and of the lowest of those before it, if there is one. (With `min` at the end of the chain below the code
// is proved too, but with `max` there it would be refused for a name in the proof, and not for a wrong target.)
fn lower_of(lowest: Option<u32>, target: u32) -> Option<u32>
    ensures { result ≡ lower_of lowest target }
{
    match lowest {
        Some(least) => Some(target.min(least)),
        None => Some(target),
    }
}

// The lowest target in force on a day, or none where no term runs; 14 where the terms or the date are invalid.
#[tactic(auto, using(crate::proofs::Chains::count_most), unfolding(rules::specs::Consent::target_on))]
pub fn target_on(consent: Consent, date: Date) -> Result<Option<u32>, Refusal>
    ensures { result ≡ target_on consent date }
{
    if !consent_valid(&consent) || !date_valid(date) {
        return Err(Refusal::Terms);
    }
    let count = consent.count as usize;
    let running = consent.terms[..count]
        .iter()
        .filter(|term| in_force(term, date));
    Ok(running.map(|term| term.nitrate_target).fold(None, lower_of))
}
