ghost use Rattle.std.specs.Prelude.{◌≡◌, pos, ◌≤ℤ◌, ◌<ℤ◌, MatchOption, unsigned_abs};
ghost use Rattle.exact.specs.Division.{floor, ceiling, RoundsDown, RoundsUp};

// A whole number from 1 up, to divide by.
#[derive(Clone, Copy)]
pub struct Divisor {
    pub value: i64,
    ghost positive: { pos 0 <ℤ value },
}

impl Divisor {
    // The divisor of that value; none where it is 0 or below.
    pub fn new(value: i64) -> Option<Divisor>
        ensures { MatchOption result (value ≤ℤ pos 0) (λ d. d.value ≡ value) }
    {
        if value > 0 {
            Some(Divisor { value })
        } else {
            None
        }
    }

    // The number divided, rounded down.
    pub fn floor(self, number: i64) -> i64
        ensures value { result ≡ floor number (unsigned_abs self.value) }
        ensures meaning { RoundsDown number self.value result }
    {
        let quotient = number / self.value;
        if number % self.value < 0 {
            quotient - 1
        } else {
            quotient
        }
    }

    // The number divided, rounded up. Written beside the other: the least number has no opposite that could be rounded down.
    pub fn ceiling(self, number: i64) -> i64
        ensures value { result ≡ ceiling number (unsigned_abs self.value) }
        ensures meaning { RoundsUp number self.value result }
    {
        let quotient = number / self.value;
        if number % self.value > 0 {
            quotient + 1
        } else {
            quotient
        }
    }
}
