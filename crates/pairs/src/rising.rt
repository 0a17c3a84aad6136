ghost use Rattle.std.specs.Prelude.{◌≡◌, ◌≤ℤ◌, ◌<ℤ◌, MatchOption};

use places::sample::Sample;

// Two measurements, the first at the lesser argument.
#[derive(Clone, Copy)]
pub struct Rising {
    pub first: Sample,
    pub second: Sample,
    ghost rises: { first.argument.value <ℤ second.argument.value },
}

impl Rising {
    ghost use Rattle.pairs.specs.Narrowest.{TurnedPair};

    // The pair of these two; none where the first is not before the second.
    pub fn new(first: Sample, second: Sample) -> Option<Rising>
        ensures { MatchOption result (second.argument.value ≤ℤ first.argument.value) (λ p. (p.first ≡ first) × (p.second ≡ second)) }
    {
        if first.argument.value < second.argument.value {
            Some(Rising { first, second })
        } else {
            None
        }
    }

    // The pair turned upside down. Each type turns its own parts: a trait of what can be turned would share no line.
    pub fn mirrored(self) -> Rising
        ensures { TurnedPair self result }
    {
        Rising {
            first: self.first.mirrored(),
            second: self.second.mirrored(),
        }
    }
}
