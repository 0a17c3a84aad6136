ghost use Rattle.places.specs.Held.{held};
ghost use Rattle.pairs.specs.Narrowest.{Narrowest};

use crate::best::greatest_low;
use crate::extremes::Extremes;
use crate::quantity::Quantity;
use places::places::Places;

// The narrowest bounds that pairs set; none where all that is held has one argument.
// The greatest is the opposite of the least upside down.
pub fn narrowest(quantity: Quantity, places: &Places) -> Option<Extremes>
    ensures { Narrowest quantity (held places.now.all) result }
{
    let least = greatest_low(quantity, places)?;
    let turned = places.mirrored();
    let opposite = greatest_low(quantity, &turned)?;
    Some(Extremes {
        least,
        greatest: opposite.mirrored(),
    })
}
