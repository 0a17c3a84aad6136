ghost use Rattle.std.specs.Prelude.{◌≡◌};
ghost use Rattle.refusal.specs.declared.refusal.Refusal.TheVariants.{SettingOutOfLimits};

use refusal::refusal::Refusal;

// A setting that breaks the limits of a stage: its position.
#[derive(Clone, Copy, PartialEq, Eq, Debug)]
pub struct OutOfLimits {
    pub position: u8,
}

// Written out, since what a derive writes has no contract.
impl From<OutOfLimits> for Refusal {
    ghost from_gives = { λ e refusal. refusal ≡ SettingOutOfLimits e.position };

    fn from(e: OutOfLimits) -> Refusal {
        Refusal::SettingOutOfLimits {
            position: e.position,
        }
    }
}
