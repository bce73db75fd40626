// A candidate that is known to be on the grid.
ghost use Rattle.std.specs.Prelude.{◌≡◌};
ghost use Rattle.rules.specs.Ranges.{OnGrid};
ghost use Rattle.rules.specs.declared.Candidate.{Candidate};

use crate::{Candidate, GridFraction, GridRatio, GridTime};
use std::marker::Model;

// A candidate of the grid of either flow. A clause sees the candidate; its figures are read by a method each.
#[derive(Clone, Copy)]
pub struct GridCandidate {
    candidate: Candidate,
}

impl Model for GridCandidate {
    ghost Value = { Candidate };

    ghost view = { λ g. g.candidate };

    ghost invariant = { λ g. OnGrid g.candidate };

    ghost inverse = { λ y. record { candidate = y } };
}

impl GridCandidate {
    pub fn new(candidate: Candidate) -> GridCandidate
        requires { OnGrid candidate }
        ensures { result ≡ candidate }
    {
        GridCandidate { candidate }
    }

    pub fn fraction(self) -> GridFraction
        ensures { result ≡ self.fraction }
    {
        GridFraction::new(u64::from(self.candidate.fraction))
    }

    pub fn return_ratio(self) -> GridRatio
        ensures { result ≡ self.return_ratio }
    {
        GridRatio::new(u64::from(self.candidate.return_ratio))
    }

    pub fn thickening(self) -> GridTime
        ensures { result ≡ self.thickening }
    {
        GridTime::new(u64::from(self.candidate.thickening))
    }
}
