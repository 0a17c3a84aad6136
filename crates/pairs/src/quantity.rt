ghost use Rattle.std.specs.Prelude.{◌≡◌, pos, ◌-ℤ◌, ◌≤ℤ◌};
ghost use Rattle.exact.specs.Limits.{least_numerator, greatest_numerator};
ghost use Rattle.lines.specs.Values.{least};
ghost use Rattle.places.specs.Samples.{measured};
ghost use Rattle.pairs.specs.Low.{low_of_pair, Writes};

use crate::rising::Rising;
use exact::argument::Argument;
use exact::fraction::Fraction;
use exact::product::product;
use places::sample::Sample;

// A quantity of a line: its slope, or its value at an argument. Both are quantities, and an Option of an argument would name neither.
#[derive(Clone, Copy)]
pub enum Quantity {
    Slope,
    Value { argument: Argument },
}

impl Quantity {
    // The least that a line has which meets both.
    pub fn low(self, pair: Rising) -> Fraction
        ensures { Writes result (low_of_pair self pair) }
    {
        let Rising { first, second } = pair;
        match self {
            Quantity::Slope => over_span(second.set.lower as i64 - first.set.upper as i64, pair),
            Quantity::Value { argument } => {
                let from_first = least(first, second.argument.value - argument.value);
                let from_second = least(second, argument.value - first.argument.value);
                over_span(from_first + from_second, pair)
            }
        }
    }
}

// The least product of a weight with a value of the set.
#[tactic(auto, unfolding(lines::specs::Values::least))]
fn least(sample: Sample, weight: i32) -> i64
    ensures { result ≡ least (measured sample) weight }
{
    if weight < 0 {
        product(sample.set.upper, weight)
    } else {
        product(sample.set.lower, weight)
    }
}

// The numerator over the distance from the first argument to the second.
fn over_span(numerator: i64, pair: Rising) -> Fraction
    requires { (least_numerator ≤ℤ numerator) × (numerator ≤ℤ greatest_numerator) }
    ensures numerator { result.numerator ≡ numerator }
    ensures span { pos result.denominator ≡ pair.second.argument.value -ℤ pair.first.argument.value }
{
    Fraction {
        numerator,
        denominator: (pair.second.argument.value - pair.first.argument.value) as u16,
    }
}
