ghost use Rattle.stage.specs.Chains.{chained};
ghost use Rattle.stage.specs.Soundness.{chained_sound};

use crate::not_taken::NotTaken;
use crate::stage::Stage;

// A stage nearer the reading, set on another one; each may be a chain itself.
#[derive(Clone, Copy)]
pub struct Chain<U, L> {
    pub upper: U,
    pub lower: L,
}

impl<U: Stage, L: Stage> Stage for Chain<U, L> {
    ghost meaning = { λ s. chained (U.meaning s.upper) (L.meaning s.lower) };

    ghost sound = { λ s. chained_sound _ _ (U.sound s.upper) (L.sound s.lower) };

    fn count(&self) -> u8 {
        self.upper.count().saturating_add(self.lower.count())
    }

    fn ask(&self, reading: i32) -> Result<(i32, i32), NotTaken> {
        let (low, high) = self.upper.ask(reading)?;
        let above = self.upper.count();
        let (lower, _) = self.lower.ask(low).map_err(|refused| refused.below(above))?;
        let (_, upper) = self
            .lower
            .ask(high)
            .map_err(|refused| refused.below(above))?;
        Ok((lower, upper))
    }
}
