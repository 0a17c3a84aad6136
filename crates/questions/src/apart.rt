ghost use Rattle.std.specs.Prelude.{◌≡◌, ◌≤ℤ◌, MatchBool, MatchOption};
ghost use Rattle.lines.specs.Sheet.{Conflict as Conflicting};
ghost use Rattle.lines.specs.Slopes.{PairsMeet};
ghost use Rattle.places.specs.Held.{held};
ghost use Rattle.places.specs.Samples.{measured};
ghost use Rattle.questions.specs.Told.{Named};
ghost use Rattle.questions.specs.Naming.{LiesAbove};

use crate::naming::two;
use places::places::Places;
use places::sample::Sample;
use refusal::conflict::Conflict;

// Two measurements at one argument whose sets have no value in common.
pub(crate) fn apart(places: &Places) -> Option<Conflict>
    ensures { MatchOption result (PairsMeet (held places.now.all)) (λ c. Conflicting (held places.now.all) × Named (held places.now.all) c) }
{
    for a in &places.all {
        let Some(first) = a.sample() else {
            continue;
        };
        for b in &places.all {
            let Some(second) = b.sample() else {
                continue;
            };
            if lies_above(first, second) {
                return Some(two(first, second));
            }
        }
    }
    None
}

// Whether the first lies above the second, at one argument.
fn lies_above(a: Sample, b: Sample) -> bool
    ensures { MatchBool result (LiesAbove (measured a) (measured b)) (a.argument.value ≡ b.argument.value → a.set.lower ≤ℤ b.set.upper) }
{
    a.argument.value == b.argument.value && a.set.lower > b.set.upper
}
