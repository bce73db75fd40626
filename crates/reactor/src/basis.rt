// Accepted data with what no fraction moves of their reactor: the reactor at a fraction, its verdict, and what explains it.
ghost use Rattle.std.specs.Prelude.{◌≡◌};
ghost use Rattle.rules.specs.ReactorSteps.{reactor_of};
ghost use Rattle.rules.specs.Rules.{verdict};
ghost use Rattle.rules.specs.Consent.{every, terms_of};
ghost use Rattle.rules.specs.TermSteps.{nitrifies, term_covered};
ghost use Rattle.rules.specs.Examining.{fraction_rules};
ghost use Rattle.rules.specs.Sums.{values_from};
ghost use Rattle.rules.specs.Limits.{most_terms};
ghost use Rattle.rules.specs.Explaining.{term_at};
ghost use Rattle.reactor.specs.Seasons.{SeasonsAt, TermSeasons};

use crate::age::{corrected_by, sludge_age_at_fraction};
use crate::nitrate::{covered, removes};
use crate::sludge::{carbon_sludge_in, sludge_mass};
use crate::{Season, Seasons};
use rules::{Accepted, DailySludge, GridFraction, MOST_TERMS, Reactor, Refusal, TermExplained};
use std::array;
use verdicts::rule;

// Accepted data, and what does not depend on the fraction, reckoned once for them.
#[derive(Clone, Copy)]
pub struct Basis {
    pub data: Accepted,
    pub seasons: Seasons,
    pub ghost seasons_at: { SeasonsAt «data».plant «data».concentrations seasons },
}

impl Basis {
    // Reckons what does not depend on the fraction.
    pub fn new(accepted: Accepted) -> Basis
        ensures { result.data ≡ accepted }
    {
        let seasons = Seasons::new(&accepted);
        Basis {
            data: accepted,
            seasons,
        }
    }

    // f, t, W, D, K × C or what stands for it, what the dose removes, S and M at a fraction.
    pub fn reactor(&self, fraction: GridFraction) -> Reactor
        ensures { result ≡ reactor_of self.now.data.plant self.now.data.concentrations fraction }
    {
        let accepted = &self.data;
        let inflow = self.seasons.inflow;
        let design = self.seasons.design;
        let age = sludge_age_at_fraction(design.aerobic_age, fraction.get());
        let corrected = corrected_by(age.get(), design.decay);
        let carbon = carbon_sludge_in(accepted, corrected);
        let sludge = DailySludge::new(carbon.get() + inflow.phosphorus_sludge.get());
        Reactor {
            fraction,
            age,
            nitrified: inflow.nitrified,
            denitrified: inflow.denitrified,
            removes: removes(accepted, fraction, design.temperature, corrected),
            removed_by_dose: inflow.removed_by_dose,
            sludge,
            mass: sludge_mass(age, sludge),
        }
    }

    // The verdict on the fraction's rules 7, 15 and 16. The terms are looked at only where the nitrate is covered.
    pub fn fraction_verdict(&self, reactor: &Reactor) -> Result<(), Refusal>
        ensures { result ≡ verdict (fraction_rules self.now.data.plant self.now.data.concentrations reactor.now) }
    {
        let covered = covered(
            reactor.removes,
            reactor.removed_by_dose,
            reactor.denitrified,
        );
        rule(covered, Refusal::Nitrate)?;
        rule(self.every_nitrified(reactor), Refusal::Nitrification)?;
        rule(self.every_covered(reactor), Refusal::TermNitrate)
    }

    // What the terms of the consent ask.
    fn terms(&self) -> &[Season]
        ensures { TermSeasons self.now.data.plant result.now }
    {
        &self.seasons.terms[..self.seasons.count as usize]
    }

    // Nitrification is kept in every term.
    fn every_nitrified(&self, reactor: &Reactor) -> bool
        ensures { result ≡ every (nitrifies self.now.data.plant reactor.now) (terms_of self.now.data.plant.consent) }
    {
        self.terms()
            .iter()
            .all(|season| season.nitrifies(reactor.age))
    }

    // The nitrate is covered in every term.
    fn every_covered(&self, reactor: &Reactor) -> bool
        ensures { result ≡ every (term_covered self.now.data.plant self.now.data.concentrations reactor.now) (terms_of self.now.data.plant.consent) }
    {
        self.terms()
            .iter()
            .all(|season| season.covers(&self.data, reactor))
    }

    // The figures that explain a reactor in entry i of the consent; zeros past the count.
    fn term_explained(&self, i: usize, reactor: &Reactor) -> TermExplained
        ensures { result ≡ term_at self.now.data.plant self.now.data.concentrations reactor.now i }
    {
        match self.terms().get(i) {
            Some(season) => season.explained(&self.data, reactor),
            None => TermExplained::default(),
        }
    }

    // The figures that explain a reactor in each term of the consent; zeros past their count.
    pub fn terms_explained(&self, reactor: &Reactor) -> [TermExplained; MOST_TERMS]
        ensures { result ≡ values_from 0 most_terms (term_at self.now.data.plant self.now.data.concentrations reactor.now) }
    {
        array::from_fn(|i| self.term_explained(i, reactor))
    }
}
