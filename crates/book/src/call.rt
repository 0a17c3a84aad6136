// A call with what it is passed. A point goes by the channel number and the serial that it bears.
#[derive(Clone, Copy)]
pub enum Call {
    Open {
        argument: i32,
    },
    File {
        number: u16,
        serial: u32,
        reading: i32,
    },
    Abort {
        number: u16,
        serial: u32,
    },
    Withdraw {
        serial: u32,
    },
    Clear,
    Verdict,
    Slope,
    Value {
        argument: i32,
    },
    Tallies,
}
