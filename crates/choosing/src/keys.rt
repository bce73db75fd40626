// The order of choosing.
ghost use Rattle.std.specs.Prelude.{◌≡◌};
ghost use Rattle.choosing.specs.Keys.{key_candidate, LesserOf, FirstOf};

use rules::Candidate;

// A candidate with its total, m3. Of two candidates the one with the lesser key comes first: by total, then fraction, then return
// ratio, then thickening time.
#[derive(Clone, Copy, PartialEq, Eq, PartialOrd, Ord)]
pub struct Key {
    pub total: u64,
    pub fraction: u32,
    pub return_ratio: u32,
    pub thickening: u32,
}

impl Key {
    pub fn candidate(self) -> Candidate
        ensures { result ≡ key_candidate self }
    {
        Candidate {
            fraction: self.fraction,
            return_ratio: self.return_ratio,
            thickening: self.thickening,
        }
    }
}

// The lesser of two keys, either of which there may not be.
pub fn lesser(a: Option<Key>, b: Option<Key>) -> Option<Key>
    ensures { LesserOf a b result }
{
    match (a, b) {
        (Some(a), Some(b)) => Some(a.min(b)),
        (None, one) | (one, None) => one,
    }
}

// The lesser of the best so far and of the key of a later place in the order of the sweep, by the totals alone: of equal totals the
// best so far stands.
pub(crate) fn first_of(best: Option<Key>, later: Option<Key>) -> Option<Key>
    ensures { FirstOf best later result }
{
    match (best, later) {
        (Some(a), Some(b)) if b.total < a.total => later,
        (None, _) => later,
        _ => best,
    }
}
