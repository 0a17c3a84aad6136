ghost use Rattle.places.specs.Held.{held};
ghost use Rattle.pairs.specs.Low.{quantity_of};
ghost use Rattle.questions.specs.Told.{TellsVerdict, TellsBounds, TellsSlope, TellsValue, TwoAndThree};

use crate::conflicts::any_conflict;
use crate::level::at_one_argument;
use crate::verdict::Verdict;
use exact::argument::Argument;
use exact::fraction::Fraction;
use pairs::narrowest::narrowest;
use pairs::quantity::Quantity;
use places::places::Places;
use refusal::refusal::Refusal;

// Whether one line meets all that is held, or which measurements conflict.
#[tactic(auto, using(lines::proofs::Threes::two_and_three))]
pub fn verdict(places: &Places) -> Result<Verdict, Refusal>
    ensures tells { TellsVerdict (held places.now.all) result }
    ensures shown { TwoAndThree }
{
    if places.hold_nothing() {
        return Err(Refusal::NothingHeld);
    }
    match any_conflict(places) {
        Some(conflict) => Ok(Verdict::Conflict { conflict }),
        None => Ok(Verdict::Line),
    }
}

// The least and the greatest slope of the lines that meet all that is held.
pub fn slope(places: &Places) -> Result<(Fraction, Fraction), Refusal>
    ensures { TellsSlope (held places.now.all) result }
{
    bounds(Quantity::Slope, places)
}

// The least and the greatest value at an argument of the lines that meet all that is held.
pub fn value(places: &Places, argument: i32) -> Result<(Fraction, Fraction), Refusal>
    ensures { TellsValue (held places.now.all) argument result }
{
    let argument = Argument::new(argument).ok_or(Refusal::ArgumentOutOfLimits)?;
    bounds(Quantity::Value { argument }, places)
}

// The least and the greatest of a quantity of the lines that meet all that is held: a pair, which whoever asks takes apart at once.
fn bounds(quantity: Quantity, places: &Places) -> Result<(Fraction, Fraction), Refusal>
    ensures { TellsBounds (quantity_of quantity) (held places.now.all) result }
{
    if let Verdict::Conflict { conflict } = verdict(places)? {
        return Err(Refusal::NoAdmissibleLine { conflict });
    }
    match narrowest(quantity, places) {
        Some(pairs) => Ok((pairs.least.bound, pairs.greatest.bound)),
        None => at_one_argument(quantity, places),
    }
}
