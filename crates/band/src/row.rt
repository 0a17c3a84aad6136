ghost use Rattle.std.specs.Prelude.{◌≡◌};

// The readings from the first on have these ends, up to the next row's first.
#[derive(Clone, Copy)]
pub struct Row {
    pub first: i32,
    pub lower: i32,
    pub upper: i32,
}

// A row of zeros.
pub const ZERO: Row = Row {
    first: 0,
    lower: 0,
    upper: 0,
};

impl Row {
    ghost use Rattle.band.specs.Faults.{in_order, follows};

    // Whether the ends are in order and within their limits.
    pub(crate) fn in_order(&self) -> bool
        ensures { result ≡ in_order self.now }
    {
        self.lower >= -100_000_000 && self.lower <= self.upper && self.upper <= 100_000_000
    }

    // Whether it can stand after another row.
    pub(crate) fn follows(&self, before: &Row) -> bool
        ensures { result ≡ follows before.now self.now }
    {
        before.first < self.first && (before.lower <= self.lower && before.upper <= self.upper)
    }
}
