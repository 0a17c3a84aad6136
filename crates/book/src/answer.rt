use crate::tallies::Tallies;
use exact::fraction::Fraction;
use refusal::conflict::Conflict;

// What a call is told that is not refused.
#[derive(Clone, Copy)]
pub enum Answer {
    // A point, by the channel number and the serial that it bears.
    Opened { number: u16, serial: u32 },
    // The ends of the reading's uncertainty set.
    Filed { serial: u32, lower: i32, upper: i32 },
    Aborted { serial: u32 },
    Withdrawn { serial: u32 },
    Cleared,
    Counted { tallies: Tallies },
    // Some line meets all that is held.
    Line,
    Conflicting { conflict: Conflict },
    Slope { least: Fraction, greatest: Fraction },
    Value { least: Fraction, greatest: Fraction },
}
