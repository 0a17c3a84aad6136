ghost use Rattle.std.specs.Prelude.{◌≡◌, pos, ◌*ℤ◌};
ghost use Rattle.printout.specs.declared.line.Line.TheVariants.{Slope, Value};
ghost use Rattle.printout.specs.Thousandths.{rounded_down, rounded_up};

use crate::line::Line;
use exact::divisor::Divisor;
use exact::fraction::Fraction;

// A fraction in thousandths, as a number and what it has to be divided by.
fn thousandths(fraction: Fraction) -> (i64, Divisor)
    ensures number { result.0 ≡ pos 1000 *ℤ fraction.numerator }
    ensures divisor { result.1.value ≡ pos fraction.denominator }
{
    let divisor = Divisor {
        value: fraction.denominator as i64,
    };
    (1000 * fraction.numerator, divisor)
}

// A least and a greatest fraction in thousandths, rounded outwards: a pair that is taken apart at once.
fn outwards(least: Fraction, greatest: Fraction) -> (i64, i64)
    ensures least { result.0 ≡ rounded_down least }
    ensures greatest { result.1 ≡ rounded_up greatest }
{
    let (number, divisor) = thousandths(least);
    let down = divisor.floor(number);
    let (number, divisor) = thousandths(greatest);
    (down, divisor.ceiling(number))
}

impl<'a> Line<'a> {
    // The line of the least and the greatest slope, rounded outwards.
    pub fn slope(least: Fraction, greatest: Fraction) -> Line<'a>
        ensures { result ≡ Slope (rounded_down least) (rounded_up greatest) }
    {
        let (least, greatest) = outwards(least, greatest);
        Line::Slope { least, greatest }
    }

    // The line of the least and the greatest value, rounded outwards. It names another case than the one above; what they share is `outwards`.
    pub fn value(least: Fraction, greatest: Fraction) -> Line<'a>
        ensures { result ≡ Value (rounded_down least) (rounded_up greatest) }
    {
        let (least, greatest) = outwards(least, greatest);
        Line::Value { least, greatest }
    }
}
