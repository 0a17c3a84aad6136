ghost use Rattle.std.specs.Prelude.{◌≡◌, ◌≤ℤ◌, neg_ℤ, MatchOption};
ghost use Rattle.exact.specs.Limits.{least_end, greatest_end, NoSet};

// The values from a lower to an upper end, both included, in ticks.
#[derive(Clone, Copy, PartialEq, Eq, Debug)]
pub struct UncertaintySet {
    pub lower: i32,
    pub upper: i32,
    ghost low: { least_end ≤ℤ lower },
    ghost ordered: { lower ≤ℤ upper },
    ghost high: { upper ≤ℤ greatest_end },
}

impl UncertaintySet {
    // The set of these two ends; none where an end is out of its limits or the lower one is above the upper one.
    pub fn new(lower: i32, upper: i32) -> Option<UncertaintySet>
        ensures { MatchOption result (NoSet lower upper) (λ s. (s.lower ≡ lower) × (s.upper ≡ upper)) }
    {
        if lower < -100_000_000 || lower > upper || upper > 100_000_000 {
            return None;
        }
        Some(UncertaintySet { lower, upper })
    }

    // The set of the opposite values.
    pub fn mirrored(self) -> UncertaintySet
        ensures { (result.lower ≡ neg_ℤ self.upper) × (result.upper ≡ neg_ℤ self.lower) }
    {
        UncertaintySet {
            lower: -self.upper,
            upper: -self.lower,
        }
    }
}
