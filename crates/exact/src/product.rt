ghost use Rattle.std.specs.Prelude.{◌≡◌, ◌*ℤ◌};

// The product of two numbers of 32 bits, for which 64 bits are always enough.
pub fn product(a: i32, b: i32) -> i64
    ensures { result ≡ a *ℤ b }
{
    a as i64 * b as i64
}
