ghost use Rattle.std.specs.Prelude.{◌≡◌, ◌-ℤ◌, ◌*ℤ◌, MatchBool};
ghost use Rattle.rational.specs.Rational.{◌≺◌};
ghost use Rattle.lines.specs.Slopes.{LowChord};
ghost use Rattle.places.specs.Samples.{measured};
ghost use Rattle.pairs.specs.Low.{low_of_pair};
ghost use Rattle.pairs.specs.Narrowest.{high_of_pair};
ghost use Rattle.pairs.specs.declared.quantity.Quantity.TheVariants.{Slope};
ghost use Rattle.questions.specs.Naming.{Broken, ChordAbove, four};

use crate::naming::three;
use exact::argument::Argument;
use exact::product::product;
use pairs::rising::Rising;
use places::sample::Sample;
use refusal::conflict::Conflict;

// Where the low slope of one pair is above the high slope of another, three of the four conflict.
// Of the two triples that can, the first is tested by its chord; if it keeps it, the second is the one.
pub(crate) fn broken(steep: Rising, gentle: Rising) -> Conflict
    requires { high_of_pair Slope gentle ≺ low_of_pair Slope steep }
    ensures { Broken (four steep gentle) result }
{
    let Rising {
        first: j,
        second: i,
    } = steep;
    let Rising {
        first: k,
        second: m,
    } = gentle;
    if m.argument.value <= i.argument.value {
        if chord_above(k, m, i) {
            return three(k, m, i);
        }
    } else if chord_above(j.mirrored(), i.mirrored(), m.mirrored()) {
        return three(j, i, m);
    }
    if j.argument.value <= k.argument.value {
        three(j, k, m)
    } else {
        three(k, j, i)
    }
}

// Whether the chord of the lower ends of the first and the last passes above the middle one.
fn chord_above(a: Sample, b: Sample, c: Sample) -> bool
    ensures { MatchBool result (ChordAbove (measured a) (measured b) (measured c)) (LowChord (measured a) (measured b) (measured c)) }
{
    let from_first = times_distance(a.set.lower, b.argument, c.argument);
    let from_last = times_distance(c.set.lower, a.argument, b.argument);
    from_first + from_last > times_distance(b.set.upper, a.argument, c.argument)
}

// An end times the distance from one argument to another.
fn times_distance(end: i32, from: Argument, to: Argument) -> i64
    ensures { result ≡ end *ℤ (to.value -ℤ from.value) }
{
    product(end, to.value - from.value)
}
