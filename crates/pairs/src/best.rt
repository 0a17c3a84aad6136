ghost use Rattle.places.specs.Held.{held};
ghost use Rattle.pairs.specs.Best.{GreatestLow, Looked};

use crate::candidate::Candidate;
use crate::quantity::Quantity;
use crate::rising::Rising;
use exact::order::greater;
use places::places::Places;
use places::sample::Sample;

// Of all pairs, one whose least is the greatest; none where no pair rises. What is asked stands beside what it is asked of, since other
// questions have the places alone.
pub fn greatest_low(quantity: Quantity, places: &Places) -> Option<Candidate>
    ensures { GreatestLow quantity (held places.now.all) result }
{
    let mut best = None;
    for a in &places.all {
        let Some(first) = a.sample() else {
            continue;
        };
        for b in &places.all {
            let Some(second) = b.sample() else {
                continue;
            };
            best = with_pair(best, quantity, first, second);
        }
    }
    best
}

// The best so far with one more pair looked at; of equal bounds the one found first stays.
fn with_pair(
    best: Option<Candidate>,
    quantity: Quantity,
    first: Sample,
    second: Sample,
) -> Option<Candidate>
    ensures { Looked quantity best first second result }
{
    let Some(pair) = Rising::new(first, second) else {
        return best;
    };
    let bound = quantity.low(pair);
    greater(Some(Candidate { bound, pair }), best)
}
