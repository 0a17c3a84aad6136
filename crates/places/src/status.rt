// What a place is looked for by: that it is free, or open or held under a serial.
#[derive(Clone, Copy)]
pub enum Status {
    Free,
    Open { serial: u32 },
    Held { serial: u32 },
}
