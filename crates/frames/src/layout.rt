ghost use Rattle.std.specs.Prelude.{◌≡◌, ◌+◌, ◌*◌, ◌/◌, ◌%◌, ◌<◌};
ghost use Rattle.frames.specs.Tape.{signed, fixed_length};

// How many bytes a frame has besides its reason: first for each kind, then for each code of a question. 0 is for what is unknown, and
// for the kind of a question. It is a rule of this project that one constant table has them all.
const LENGTHS: [u8; 32] = [
    0, 3, // 1: load
    4, // 2: reading
    1, // 3: abort, without its reason
    4, // 4: withdraw
    0, // 5: question, by its code below
    1, // 6: clear
    0, 0, 0, 0, 0, 0, 0, 0, 0, // 7 to 15: unknown
    0, // the codes of a question from here on: 0 is unknown
    1, // 1: verdict
    1, // 2: slope
    3, // 3: value
    1, // 4: tallies
    0, 0, 0, 0, 0, 0, 0, 0, 0, 0, 0,
];

// The kind of a question, whose codes have lengths of their own.
const QUESTION: u8 = 5;

// The fixed length of a frame with that first byte.
pub(crate) fn fixed_length(head: u8) -> u8
    ensures { result ≡ fixed_length (head / 16) (head % 16) }
{
    let kind = head / 16;
    let code = head % 16;
    if kind == QUESTION {
        LENGTHS[16 + code as usize]
    } else {
        LENGTHS[kind as usize]
    }
}

// Two bytes as a signed number of 16 bits. Bytes come one by one, as a slice pattern gives them.
pub(crate) fn signed16(a: u8, b: u8) -> i32
    ensures { result ≡ signed 16 (256 * a + b) }
{
    u16::from_be_bytes([a, b]).cast_signed() as i32
}

// The low four bits of a byte, and then three bytes, as a number of 28 bits.
pub(crate) fn number28(head: u8, a: u8, b: u8, c: u8) -> u32
    ensures { result ≡ 256 * (256 * (256 * (head % 16) + a) + b) + c }
{
    u32::from_be_bytes([head % 16, a, b, c])
}

// The same bits as a signed number.
pub(crate) fn signed28(head: u8, a: u8, b: u8, c: u8) -> i32
    ensures { result ≡ signed 28 (256 * (256 * (256 * (head % 16) + a) + b) + c) }
{
    (number28(head, a, b, c) << 4).cast_signed() >> 4
}
