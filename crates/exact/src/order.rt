ghost use Rattle.std.specs.Prelude.{◌≡◌, Bool, true, ◌||◌, if◌then◌else◌};
ghost use Rattle.std.specs.Ordering.{is_le};
ghost use Rattle.std.proofs.Common.{rules};

// A total order of values, by which the greater and the lesser of two are picked. It is no more than a test: a kind of value that has
// another `==` is ordered too.
pub trait Order: Sized {
    // Whether the first is at most the second.
    ghost under: { Self → Self → Bool };

    fn at_most(&self, other: &Self) -> bool
        ensures { result ≡ under self.now other.now };

    ghost total: { (a b : Self) → (under a b || under b a) ≡ true };

    ghost transitive: { (a b c : Self) → under a b ≡ true → under b c ≡ true → under a c ≡ true };
}

// Whatever the library's order orders: ticks as numbers, fractions by quantity, and each kind that a crate above orders.
impl<T: Ord> Order for T {
    ghost under = { λ a b. is_le (T.cmp a b) };

    ghost total = { Prim.search rules };

    ghost transitive = { Prim.search rules };

    fn at_most(&self, other: &T) -> bool {
        *self <= *other
    }
}

// The greater of two values; of two that are equal in the order, the second. It is a rule of this project that the pick is written
// once, here, for every kind of value.
pub fn greater<T: Order + Copy>(a: T, b: T) -> T
    ensures value { result ≡ (if T.under a b then b else a) }
    ensures first { T.under a result ≡ true }
    ensures second { T.under b result ≡ true }
{
    if a.at_most(&b) { b } else { a }
}

// The lesser of two values; of two that are equal in the order, the first.
pub fn lesser<T: Order + Copy>(a: T, b: T) -> T
    ensures value { result ≡ (if T.under a b then a else b) }
    ensures first { T.under result a ≡ true }
    ensures second { T.under result b ≡ true }
{
    if a.at_most(&b) { a } else { b }
}
