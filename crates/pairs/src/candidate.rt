ghost use Rattle.std.specs.Prelude.{refl};
ghost use Rattle.std.specs.Cmp.{po};
ghost use Rattle.std.specs.Cmp.Rules.{comparing};
ghost use Rattle.std.specs.Ordering.{as_partial_cmp, on};
ghost use Rattle.std.proofs.Common.{rules};
ghost use Rattle.std.proofs.lemmas.Cmp.{on_total};
ghost use Rattle.rational.specs.Rational.{compare};
ghost use Rattle.rational.proofs.Order.{compare_total};
ghost use Rattle.exact.specs.Quantity.{quantity};
ghost use Rattle.pairs.specs.Narrowest.{Turned};

use crate::rising::Rising;
use exact::fraction::Fraction;
use std::cmp::Ordering;

// The bound that two measurements set.
// Candidates are in the order of their bounds; those of one bound are equal, whichever pairs set it. The order is written out,
// since a derived one has no line that the edit `other_way` could turn.
#[derive(Clone, Copy)]
#[derive_where(PartialEq, Eq)]
pub struct Candidate {
    pub bound: Fraction,
    #[derive_where(skip(EqHashOrd))]
    pub pair: Rising,
}

impl Ord for Candidate {
    ghost cmp = { on (λ c. quantity c.bound) compare };

    ghost total = { on_total (λ c. quantity c.bound) compare_total };

    ghost matches_partial_cmp = { Prim.search (comparing, rules) };

    ghost matches_eq = { Prim.search (comparing, rules) };

    fn cmp(&self, other: &Candidate) -> Ordering {
        self.bound.cmp(&other.bound)
    }
}

impl PartialOrd for Candidate {
    ghost partial_cmp = { as_partial_cmp (on (λ c. quantity c.bound) compare) };

    ghost laws = { po (on_total (λ c. quantity c.bound) compare_total) (λ a b. refl) };

    fn partial_cmp(&self, other: &Candidate) -> Option<Ordering> {
        Some(self.cmp(other))
    }
}

impl Candidate {
    // The candidate turned upside down.
    pub fn mirrored(self) -> Candidate
        ensures { Turned self result }
    {
        Candidate {
            pair: self.pair.mirrored(),
            bound: self.bound.opposite(),
        }
    }
}
