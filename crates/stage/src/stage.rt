ghost use Rattle.std.specs.Prelude.{◌≡◌, ℤ};
ghost use Rattle.stage.specs.Meaning.{Meaning, Sound, answer, told};

use crate::not_taken::NotTaken;

// A stage turns a reading into the ends of its uncertainty set, or refuses it. It is known by its meaning alone.
pub trait Stage {
    ghost meaning: { Self → Meaning };

    // How many stages there are, 255 for any number past it.
    fn count(&self) -> u8
        ensures { result ≡ told (meaning self.now).count };

    // The ends of a reading's set, the lower one first, if the reading is taken.
    fn ask(&self, reading: i32) -> Result<(i32, i32), NotTaken>
        ensures { result ≡ answer (meaning self.now) reading };

    // The four facts that each make shows of its meaning.
    ghost sound: { (s : Self) → Sound (meaning s) };
}
