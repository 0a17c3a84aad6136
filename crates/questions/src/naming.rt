ghost use Rattle.places.specs.Samples.{measured};
ghost use Rattle.questions.specs.Naming.{InOrder, NamesTwo, NamesThree};

use exact::order::{greater, lesser};
use places::sample::Sample;
use refusal::conflict::Conflict;

// Two samples in the order of their serials.
fn in_order(a: Sample, b: Sample) -> (Sample, Sample)
    ensures { InOrder a b result.0 result.1 }
{
    (lesser(a, b), greater(a, b))
}

// Names two measurements. Samples go one by one, since each function takes them in an order of its own.
#[tactic(auto, using(crate::proofs::Serials::names_two))]
pub(crate) fn two(a: Sample, b: Sample) -> Conflict
    ensures { NamesTwo (measured a) (measured b) result }
{
    let (first, second) = in_order(a, b);
    Conflict {
        first: first.serial,
        second: second.serial,
        third: None,
    }
}

// Names three measurements.
pub(crate) fn three(a: Sample, b: Sample, c: Sample) -> Conflict
    ensures { NamesThree (measured a) (measured b) (measured c) result }
{
    let (low, high) = in_order(a, b);
    let (middle, last) = in_order(high, c);
    let (first, second) = in_order(low, middle);
    Conflict {
        first: first.serial,
        second: second.serial,
        third: Some(last.serial),
    }
}
