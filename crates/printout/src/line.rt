use refusal::conflict::Conflict;

// What a line of the printout tells. A refusal's number stays a `u8`: every number has a line, and there
// are but fourteen refusals.
#[derive(Clone, Copy)]
pub enum Line<'a> {
    // A point was opened.
    Load {
        serial: u32,
        argument: i32,
    },
    // A reading was filed: the ends of its set.
    Set {
        serial: u32,
        lower: i32,
        upper: i32,
    },
    // A reading was not taken: the refusal's number, the place of the stage that refused it, and the value that this stage was handed.
    Spoiled {
        serial: u32,
        number: u8,
        place: u8,
        value: i32,
    },
    // A point was aborted, for a reason.
    Aborted {
        serial: u32,
        reason: &'a [u8],
    },
    // A measurement was withdrawn.
    Withdrawn {
        serial: u32,
    },
    // A line meets all that is held.
    Possible,
    // No line meets all that is held.
    Conflicting {
        conflict: Conflict,
    },
    // The least and the greatest slope, in thousandths.
    Slope {
        least: i64,
        greatest: i64,
    },
    // The least and the greatest value, in thousandths.
    Value {
        least: i64,
        greatest: i64,
    },
    // How many points were opened, filed, spoiled and aborted, and how many are open and held. Each by itself: a printout knows no book.
    Tallies {
        opened: u32,
        filed: u32,
        spoiled: u32,
        aborted: u32,
        open: u32,
        held: u32,
    },
    // All was cleared.
    Cleared,
    // A call was refused, with this number.
    Refused {
        number: u8,
    },
}
