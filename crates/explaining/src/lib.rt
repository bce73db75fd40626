// Explaining a candidate: the two nitrate columns, here and in each term of the consent, the figures that the rules 8 to 10 ask
// of, and the first rule that is broken, whatever it is.
#![tactic(auto)]

ghost use Rattle.std.specs.Prelude.{◌≡◌};
ghost use Rattle.rules.specs.Explaining.{candidate_explained, explain_candidate, explain};

use reactor::Basis;
use rules::{Accepted, Candidate, Explained, GridCandidate, Plant, Readings, Refusal};

// The explaining figures of a candidate on the grid.
fn explained(accepted: &Accepted, candidate: GridCandidate) -> Explained
    ensures { result ≡ candidate_explained accepted.now.plant accepted.now.concentrations candidate }
{
    let basis = Basis::new(*accepted);
    let stages = examining::stages_of(&basis, candidate);
    let reactor = &stages.reactor;
    let settling = &stages.settling;
    let removed_by_bod = reactor.removes.get() / 1000;
    let removed_by_dose = reactor.removed_by_dose.get();
    Explained {
        denitrified: reactor.denitrified.get(),
        removed_by_bod,
        removed_by_dose,
        removable: removed_by_bod + removed_by_dose,
        solids: settling.solids.get(),
        sludge_volume: settling.sludge_volume.get(),
        surface: settling.surface.get(),
        depth: settling.depth.get(),
        verdict: stages.verdict,
        terms: basis.terms_explained(reactor),
    }
}

// A candidate of accepted data: 6, else its figures.
fn explain_candidate(accepted: &Accepted, candidate: Candidate) -> Result<Explained, Refusal>
    ensures { result ≡ explain_candidate accepted.now.plant accepted.now.concentrations candidate }
{
    verdicts::rule(
        examining::on_grid(accepted.plant.tank, candidate),
        Refusal::OffGrid,
    )?;
    Ok(explained(accepted, GridCandidate::new(candidate)))
}

// What explaining answers for any plant data, lab readings and candidate: like examining accepted first, and then one call.
pub fn explain(plant: Plant, readings: Readings, candidate: Candidate) -> Result<Explained, Refusal>
    ensures { result ≡ explain plant readings candidate }
{
    let accepted = accepting::accept(plant, readings)?;
    explain_candidate(&accepted, candidate)
}
