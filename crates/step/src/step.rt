ghost use Rattle.std.specs.Prelude.{◌≡◌, ◌≤◌};
ghost use Rattle.step.specs.Ends.{greatest_step, lower_end, upper_end};

use exact::product::product;
use stage::not_taken::NotTaken;
use stage::out_of_limits::OutOfLimits;
use stage::single::limited;
use stage::stage::Stage;

// A display whose reading r stands for the values around r steps.
#[derive(Clone, Copy)]
pub struct Step {
    pub size: u32,
    ghost some: { 1 ≤ size },
    ghost few: { size ≤ greatest_step },
}

impl Step {
    ghost use Rattle.step.specs.Setting.{Set};

    // The stage of that step; refused where it is out of its range.
    pub fn new(size: u32) -> Result<Step, OutOfLimits>
        ensures { Set size result }
    {
        if size < 1 || size > 1_000 {
            return Err(OutOfLimits { position: 1 });
        }
        Ok(Step { size })
    }

    // The ends of the values that the display shows as a reading, the lower one first.
    #[tactic(auto, using(crate::specs::Scaled::scaled_within))]
    pub fn ends(&self, reading: i32) -> (i64, i64)
        ensures { result ≡ (lower_end self.now.size reading, upper_end self.now.size reading) }
    {
        let middle = product(self.size as i32, reading);
        let half = ((self.size + 1) / 2) as i64;
        (middle - half, middle + half)
    }
}

impl Stage for Step {
    ghost use Rattle.stage.specs.Meaning.{single};
    ghost use Rattle.stage.specs.Soundness.{single_sound};
    ghost use Rattle.step.specs.Scaled.{ends_ordered, lower_rises, upper_rises};

    ghost meaning = { λ s. single (lower_end s.size) (upper_end s.size) };

    ghost sound = { λ s. single_sound (lower_end s.size) (upper_end s.size) (ends_ordered s.size) (lower_rises s.size) (upper_rises s.size) };

    fn count(&self) -> u8 {
        1
    }

    // Two lines, as those of a bounded stage: a trait for what has ends would be a second one beside Stage, with three of its four laws.
    fn ask(&self, reading: i32) -> Result<(i32, i32), NotTaken> {
        let (lower, upper) = self.ends(reading);
        limited(lower, upper, reading)
    }
}
