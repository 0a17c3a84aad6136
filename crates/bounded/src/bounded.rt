ghost use Rattle.std.specs.Prelude.{◌≡◌, ◌+◌, ◌-◌, ◌≤◌, pos, if◌then◌else◌};
ghost use Rattle.bounded.specs.Limits.{greatest_absolute, greatest_relative, million};
ghost use Rattle.bounded.specs.Ends.{lower_end, upper_end};
ghost use Rattle.bounded.specs.Model.{Encloses};

use exact::divisor::Divisor;
use stage::not_taken::NotTaken;
use stage::out_of_limits::OutOfLimits;
use stage::single::limited;
use stage::stage::Stage;

// A stage with an absolute limit in ticks and a relative one in millionths of the true value.
#[derive(Clone, Copy)]
pub struct Bounded {
    pub absolute: u32,
    pub relative: u32,
    ghost low: { absolute ≤ greatest_absolute },
    ghost few: { relative ≤ greatest_relative },
}

impl Bounded {
    ghost use Rattle.bounded.specs.Setting.{Set};

    // The stage of these two limits; refused with the position of the first one that is too large.
    pub fn new(absolute: u32, relative: u32) -> Result<Bounded, OutOfLimits>
        ensures { Set absolute relative result }
    {
        if absolute > 1_000_000 {
            return Err(OutOfLimits { position: 1 });
        }
        if relative > 100_000 {
            return Err(OutOfLimits { position: 2 });
        }
        Ok(Bounded { absolute, relative })
    }

    // The ends of the values that can have given a reading, the lower one first.
    pub fn ends(&self, reading: i32) -> (i64, i64)
        ensures value { result ≡ (lower_end self.now.absolute self.now.relative reading, upper_end self.now.absolute self.now.relative reading) }
        ensures model { Encloses self.now.absolute self.now.relative reading result.0 result.1 }
    {
        (self.lower_end(reading), self.upper_end(reading))
    }

    // The least value whose reading can be that high: an error in proportion to the value adds to it above 0, and takes from it below.
    fn lower_end(&self, reading: i32) -> i64
        ensures { result ≡ lower_end self.now.absolute self.now.relative reading }
    {
        let low = reading as i64 - self.absolute as i64;
        self.divisor(low >= 0).floor(low * 1_000_000)
    }

    // The greatest value whose reading can be that low. It rounds up and takes the other divisor: in one function with the
    // lower one its proof did not close.
    fn upper_end(&self, reading: i32) -> i64
        ensures { result ≡ upper_end self.now.absolute self.now.relative reading }
    {
        let high = reading as i64 + self.absolute as i64;
        self.divisor(high < 0).ceiling(high * 1_000_000)
    }

    // What a million millionths become with the relative limit added to them, or taken from them.
    fn divisor(&self, wide: bool) -> Divisor
        ensures { result.value ≡ pos (if wide then million + self.now.relative else (million - self.now.relative)) }
    {
        let relative = self.relative as i64;
        Divisor {
            value: if wide {
                1_000_000 + relative
            } else {
                1_000_000 - relative
            },
        }
    }
}

impl Stage for Bounded {
    ghost use Rattle.stage.specs.Meaning.{single};
    ghost use Rattle.stage.specs.Soundness.{single_sound};
    ghost use Rattle.bounded.specs.Truth.{ends_ordered, lower_rises, upper_rises};

    ghost meaning = { λ s. single (lower_end s.absolute s.relative) (upper_end s.absolute s.relative) };

    ghost sound = { λ s.
        let e = s.absolute in let d = s.relative in
        single_sound (lower_end e d) (upper_end e d) (ends_ordered d s.few e) (lower_rises d s.few e) (upper_rises d s.few e) };

    fn count(&self) -> u8 {
        1
    }

    // Two lines, as those of a step: a trait for what has ends would be a second one beside Stage, with three of its four laws.
    fn ask(&self, reading: i32) -> Result<(i32, i32), NotTaken> {
        let (lower, upper) = self.ends(reading);
        limited(lower, upper, reading)
    }
}
