ghost use Rattle.std.specs.Prelude.{◌≡◌};
ghost use Rattle.std.specs.Cmp.Rules.{comparing};
ghost use Rattle.std.specs.Ordering.{as_partial_cmp, nat_cmp, on};
ghost use Rattle.std.proofs.Common.{rules};
ghost use Rattle.lines.specs.Mirror.{mirrored as turned};
ghost use Rattle.places.specs.Samples.{measured};

use exact::argument::Argument;
use exact::set::UncertaintySet;
use std::cmp::Ordering;

// What a held place tells of a line: an argument, and the set in which the value there lies.
// Samples are in the order of their serials; those of one serial are equal, whatever else they tell. The order is written out, since
// a derived one has no line that the edit `serials_strict` could turn.
#[derive(Clone, Copy)]
#[derive_where(PartialEq, Eq)]
pub struct Sample {
    pub serial: u32,
    #[derive_where(skip(EqHashOrd))]
    pub argument: Argument,
    #[derive_where(skip(EqHashOrd))]
    pub set: UncertaintySet,
}

impl Ord for Sample {
    ghost cmp = { on (λ s. s.serial) nat_cmp };

    ghost total = { Prim.search (comparing, rules) };

    ghost matches_partial_cmp = { Prim.search (comparing, rules) };

    ghost matches_eq = { Prim.search (comparing, rules) };

    fn cmp(&self, other: &Sample) -> Ordering {
        self.serial.cmp(&other.serial)
    }
}

impl PartialOrd for Sample {
    ghost partial_cmp = { as_partial_cmp (on (λ s. s.serial) nat_cmp) };

    ghost laws = { Prim.search (comparing, rules) };

    fn partial_cmp(&self, other: &Sample) -> Option<Ordering> {
        Some(self.cmp(other))
    }
}

impl Sample {
    // The same measurement turned upside down: every value goes to its opposite.
    pub fn mirrored(self) -> Sample
        ensures { measured result ≡ turned (measured self) }
    {
        Sample {
            serial: self.serial,
            argument: self.argument,
            set: self.set.mirrored(),
        }
    }
}
