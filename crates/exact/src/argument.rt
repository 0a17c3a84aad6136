ghost use Rattle.std.specs.Prelude.{◌≡◌, ◌≤ℤ◌, MatchOption};
ghost use Rattle.exact.specs.Limits.{least_argument, greatest_argument, NoArgument};

// An exact argument of a line, within 10,000 either way.
#[derive(Clone, Copy, PartialEq, Eq, Debug)]
pub struct Argument {
    pub value: i32,
    ghost low: { least_argument ≤ℤ value },
    ghost high: { value ≤ℤ greatest_argument },
}

impl Argument {
    // The argument of that value; none where it is out of its limits.
    pub fn new(value: i32) -> Option<Argument>
        ensures { MatchOption result (NoArgument value) (λ a. a.value ≡ value) }
    {
        if value < -10_000 || value > 10_000 {
            return None;
        }
        Some(Argument { value })
    }
}
