ghost use Rattle.lines.specs.Sheet.{Consistent, OneArgument};
ghost use Rattle.places.specs.Held.{held};
ghost use Rattle.pairs.specs.Low.{quantity_of};
ghost use Rattle.questions.specs.Asked.{GreatestLower};
ghost use Rattle.questions.specs.Told.{SomeHeld, TellsBounds};

use exact::argument::Argument;
use exact::fraction::Fraction;
use exact::order::greater;
use pairs::quantity::Quantity;
use places::places::Places;
use refusal::refusal::Refusal;

// The bounds where all that is held has one argument: of the value there, the greatest lower and the least upper end; of nothing else.
pub(crate) fn at_one_argument(
    quantity: Quantity,
    places: &Places,
) -> Result<(Fraction, Fraction), Refusal>
    requires held { SomeHeld (held places.now.all) }
    requires line { Consistent (held places.now.all) }
    requires one { OneArgument (held places.now.all) }
    ensures { TellsBounds (quantity_of quantity) (held places.now.all) result }
{
    let Quantity::Value { argument } = quantity else {
        return Err(Refusal::OneArgument);
    };
    // Here and below `let .. else` has the refusal beside what is missing: `ok_or` would say no more.
    let Some(lower) = greatest_lower(argument, places) else {
        return Err(Refusal::OneArgument);
    };
    let turned = places.mirrored();
    let Some(opposite) = greatest_lower(argument, &turned) else {
        return Err(Refusal::OneArgument);
    };
    Ok((Fraction::whole(lower), Fraction::whole(opposite).opposite()))
}

// The greatest lower end of what is held at an argument; none where nothing is held there.
fn greatest_lower(argument: Argument, places: &Places) -> Option<i32>
    ensures { GreatestLower argument.value (held places.now.all) result }
{
    let mut best = None;
    for place in &places.all {
        let Some(sample) = place.sample() else {
            continue;
        };
        if sample.argument.value == argument.value {
            best = greater(best, Some(sample.set.lower));
        }
    }
    best
}
