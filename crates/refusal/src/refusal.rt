ghost use Rattle.std.specs.Prelude.{◌≡◌};
ghost use Rattle.refusal.specs.Numbers.{number};

use crate::conflict::Conflict;

// Each cause of a refusal, with what is told beside its number.
#[derive(Clone, Copy, PartialEq, Eq, Debug)]
pub enum Refusal {
    // An argument is outside its limits.
    ArgumentOutOfLimits,
    // Every place is open or held.
    NoFreePlace,
    // The last serial was given.
    NoSerialLeft,
    // The point bears another channel number, or its serial is not open here.
    PointNotOpen,
    // A stage does not take the reading: the place of that stage, counted from the reading, and the value that it was handed.
    ReadingNotTaken { place: u8, value: i32 },
    // The serial is not held.
    SerialNotHeld,
    // Nothing is held.
    NothingHeld,
    // No line meets all that is held: a conflict.
    NoAdmissibleLine { conflict: Conflict },
    // All that is held has one argument, so that the bound asked for does not exist.
    OneArgument,
    // A setting breaks the limits of a stage: its position.
    SettingOutOfLimits { position: u8 },
    // The tape ends inside a frame: the position of the frame's first byte.
    FrameCutShort { position: u32 },
    // A frame of an unknown kind or code, or with filler that is not zero: the position of its first byte.
    FrameUnknown { position: u32 },
    // A reading or an abort while no point is open.
    NoOpenPoint,
    // The buffer has fewer bytes than a line may take, or a reason has too many.
    LineNotWritten,
}

impl Refusal {
    // The number by which the refusal is known.
    pub fn number(&self) -> u8
        ensures { result ≡ number self.now }
    {
        match self {
            Refusal::ArgumentOutOfLimits => 1,
            Refusal::NoFreePlace => 2,
            Refusal::NoSerialLeft => 3,
            Refusal::PointNotOpen => 4,
            Refusal::ReadingNotTaken { .. } => 5,
            Refusal::SerialNotHeld => 6,
            Refusal::NothingHeld => 7,
            Refusal::NoAdmissibleLine { .. } => 8,
            Refusal::OneArgument => 9,
            Refusal::SettingOutOfLimits { .. } => 10,
            Refusal::FrameCutShort { .. } => 11,
            Refusal::FrameUnknown { .. } => 12,
            Refusal::NoOpenPoint => 13,
            Refusal::LineNotWritten => 14,
        }
    }
}
