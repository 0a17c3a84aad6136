ghost use Rattle.std.specs.Prelude.{◌≡◌, ◌≤◌, pos, ◌*ℤ◌, ◌≤ℤ◌, neg_ℤ, MatchOption};
ghost use Rattle.exact.specs.Limits.{least_numerator, greatest_numerator, greatest_denominator, OutOfRange};
ghost use Rattle.std.proofs.Common.{rules};
ghost use Rattle.std.specs.Cmp.{partial_order_from_total, partial_equiv_from_equiv, eq_by_cmp_equiv};
ghost use Rattle.std.specs.Cmp.Rules.{comparing};
ghost use Rattle.std.proofs.lemmas.Cmp.{on_total};
ghost use Rattle.std.specs.Ordering.{on, as_partial_cmp, eq_by_cmp};
ghost use Rattle.rational.specs.Rational.{compare};
ghost use Rattle.rational.proofs.Order.{compare_total};

use std::cmp::Ordering;

// A numerator within 6,000,000,000,000 either way over a denominator from 1 to 40,000.
#[derive(Clone, Copy, Debug)]
pub struct Fraction {
    pub numerator: i64,
    pub denominator: u16,
    ghost low: { least_numerator ≤ℤ numerator },
    ghost high: { numerator ≤ℤ greatest_numerator },
    ghost some: { 1 ≤ denominator },
    ghost few: { denominator ≤ greatest_denominator },
}

impl Fraction {
    // The fraction of these two numbers; none where one of them is out of its range.
    pub fn new(numerator: i64, denominator: u16) -> Option<Fraction>
        ensures { MatchOption result (OutOfRange numerator denominator) (λ f. (f.numerator ≡ numerator) × (f.denominator ≡ denominator)) }
    {
        if numerator < -6_000_000_000_000 || numerator > 6_000_000_000_000 {
            return None;
        }
        if denominator < 1 || denominator > 40_000 {
            return None;
        }
        Some(Fraction {
            numerator,
            denominator,
        })
    }

    // A whole number as a fraction.
    pub fn whole(number: i32) -> Fraction
        ensures { (result.numerator ≡ number) × (result.denominator ≡ 1) }
    {
        Fraction {
            numerator: number as i64,
            denominator: 1,
        }
    }

    // The fraction as far from 0 on the other side.
    pub fn opposite(self) -> Fraction
        ensures { (result.numerator ≡ neg_ℤ self.numerator) × (result.denominator ≡ self.denominator) }
    {
        Fraction {
            numerator: -self.numerator,
            denominator: self.denominator,
        }
    }

    // The numerator times another fraction's denominator.
    fn across(&self, other: &Fraction) -> i64
        ensures { result ≡ self.now.numerator *ℤ pos other.now.denominator }
    {
        self.numerator * other.denominator as i64
    }
}

// Fractions by their quantity, compared by multiplying across: equal are those of one quantity, which no derive compares.
impl Ord for Fraction {
    ghost use Rattle.exact.specs.Quantity.{quantity};

    ghost cmp = { on quantity compare };

    ghost total = { on_total quantity compare_total };

    ghost matches_partial_cmp = { Prim.search (comparing, rules) };

    ghost matches_eq = { Prim.search (comparing, rules) };

    fn cmp(&self, other: &Fraction) -> Ordering {
        self.across(other).cmp(&other.across(self))
    }
}

impl PartialOrd for Fraction {
    ghost use Rattle.exact.specs.Quantity.{quantity};

    ghost partial_cmp = { as_partial_cmp (on quantity compare) };

    ghost laws = { partial_order_from_total (on_total quantity compare_total) };

    fn partial_cmp(&self, other: &Fraction) -> Option<Ordering> {
        Some(self.cmp(other))
    }
}

impl PartialEq for Fraction {
    ghost use Rattle.exact.specs.Quantity.{quantity};

    ghost eq = { eq_by_cmp (on quantity compare) };

    ghost laws = { partial_equiv_from_equiv (eq_by_cmp_equiv (on_total quantity compare_total)) };

    fn eq(&self, other: &Fraction) -> bool {
        self.cmp(other).is_eq()
    }
}

impl Eq for Fraction {
    ghost use Rattle.exact.specs.Quantity.{quantity};

    ghost laws = { eq_by_cmp_equiv (on_total quantity compare_total) };
}
