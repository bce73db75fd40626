// Prints the listing of Case A at its candidate.
#![tactic(auto)]

ghost use Rattle.std.specs.Prelude.{◌≡◌};
ghost use Rattle.rules.specs.Consent.{no_terms};
ghost use Rattle.rules.specs.Cases.{case_a, readings_a, candidate};
ghost use Rattle.rules.specs.Examining.{examine};
ghost use Rattle.listing.specs.Pages.{Writes};

use rules::{
    Candidate, Consent, MOST_TERMS, Plant, Precipitant, PrimarySettling, Process, Reading,
    Readings, Refusal, Removal, TankFlow, Term, Way,
};
use std::io;
use std::io::Write;

// A consent without terms.
fn consent() -> Consent
    ensures { result ≡ no_terms }
{
    Consent {
        count: 0,
        terms: [Term::default(); MOST_TERMS],
    }
}

// Case A's plant data and site.
fn plant() -> Plant
    ensures { result ≡ case_a }
{
    Plant {
        load: 1_200,
        flow: 5_000,
        wet_weather_flow: 600,
        design_temperature: 12,
        aeration_temperature: 20,
        sludge_volume_index: 100,
        nitrate_target: 10_000,
        phosphorus_target: 1_000,
        carbon_peak: 120,
        nitrogen_peak: 200,
        oxygen_saturation: 9_000,
        site_surface: 1_000,
        site_depth: 5_000,
        process: Process::PreAnoxic,
        precipitant: Precipitant::Iron,
        tank: TankFlow::Horizontal,
        removal: Removal::Scraper,
        primary_settling: PrimarySettling::None,
        dose: 0,
        consent: consent(),
        way: Way::Bod,
    }
}

// Case A's lab readings, mg/l.
fn readings() -> Readings
    ensures { result ≡ readings_a }
{
    Readings {
        bod: Reading::Measured(200.0),
        cod: Reading::Measured(400.0),
        solids: Reading::Measured(150.0),
        nitrogen: Reading::Measured(46.0),
        phosphorus: Reading::Measured(8.0),
    }
}

// Case A's candidate.
fn candidate() -> Candidate
    ensures { result ≡ candidate 300 75 20 }
{
    Candidate {
        fraction: 300,
        return_ratio: 75,
        thickening: 20,
    }
}

// Writes Case A's listing on a page.
fn write_sheet(page: &mut [u8]) -> Result<usize, Refusal>
    ensures { Writes (examine case_a readings_a (candidate 300 75 20)) page.old page.new result }
{
    pewgull::write(pewgull::examine(plant(), readings(), candidate()), page)
}

fn main(rt: HostRuntime) -> io::Result<()> {
    let mut page = [0u8; 512];
    match write_sheet(&mut page) {
        Ok(count) => rt.stdout().write_all(&page[..count]),
        Err(_) => Ok(()),
    }
}
