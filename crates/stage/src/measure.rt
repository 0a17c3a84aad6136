ghost use Rattle.std.specs.Prelude.{◌≡◌};
ghost use Rattle.stage.specs.Meaning.{answer, ends};

use crate::not_taken::NotTaken;
use crate::stage::Stage;
use exact::set::UncertaintySet;

// The uncertainty set of a reading, to be kept.
pub fn measure<S: Stage>(stage: &S, reading: i32) -> Result<UncertaintySet, NotTaken>
    ensures { ends result ≡ answer (S.meaning stage.now) reading }
{
    let (lower, upper) = stage.ask(reading)?;
    Ok(UncertaintySet { lower, upper })
}
