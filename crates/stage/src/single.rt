ghost use Rattle.std.specs.Prelude.{◌≡◌};
ghost use Rattle.stage.specs.Meaning.{answer, single};

use crate::not_taken::NotTaken;

// What a single stage answers to a reading with these two ends: the ends, if both lie within the limits.
pub fn limited(lower: i64, upper: i64, reading: i32) -> Result<(i32, i32), NotTaken>
    ensures { result ≡ answer (single (λ _. lower) (λ _. upper)) reading }
{
    if lower < -100_000_000 || lower > 100_000_000 || upper < -100_000_000 || upper > 100_000_000 {
        return Err(NotTaken {
            place: 1,
            value: reading,
        });
    }
    Ok((lower as i32, upper as i32))
}
