ghost use Rattle.places.specs.Held.{held};
ghost use Rattle.questions.specs.Naming.{Found};

use crate::apart::apart;
use crate::triples::broken;
use pairs::narrowest::narrowest;
use pairs::quantity::Quantity;
use places::places::Places;
use refusal::conflict::Conflict;

// Two measurements that no line meets, or three if no two are; none where one line meets all.
pub(crate) fn any_conflict(places: &Places) -> Option<Conflict>
    ensures { Found (held places.now.all) result }
{
    if let Some(pair) = apart(places) {
        return Some(pair);
    }
    let slopes = narrowest(Quantity::Slope, places)?;
    if slopes.least.bound <= slopes.greatest.bound {
        return None;
    }
    Some(broken(slopes.least.pair, slopes.greatest.pair))
}
