// A frame of a tape. The reason of an abort is a part of the tape itself.
#[derive(Clone, Copy)]
pub enum Frame<'a> {
    // A point at an argument is opened.
    Load { argument: i32 },
    // The reading for the open point.
    Reading { reading: i32 },
    // The open point is given up, for a reason.
    Abort { reason: &'a [u8] },
    // A held measurement is withdrawn, by its serial.
    Withdraw { serial: u32 },
    // Does a line meet all that is held?
    Verdict,
    // Between which slopes do such lines lie?
    Slope,
    // Between which values do such lines lie at an argument?
    Value { argument: i32 },
    // How many points were opened, filed, spoiled and aborted, and how many are open and held?
    Tallies,
    // All is cleared.
    Clear,
}
