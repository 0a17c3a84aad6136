ghost use Rattle.std.specs.Prelude.{◌≡◌, ◌+◌, ◌<◌, ◌≤◌, length, take, drop, slice_index};
ghost use Rattle.frames.specs.Tape.{said, moved};
ghost use Rattle.frames.specs.Answers.{meant, answer, Decoded};
ghost use Rattle.frames.specs.Writing.{ReadAsWritten, WrittenAsRead};

use crate::frame::Frame;
use crate::layout::{fixed_length, number28, signed16, signed28};
use refusal::refusal::Refusal;

// How many bytes are read of a tape at most.
const LONGEST: usize = 4096;

// What is left of a tape of at most 4,096 bytes, and how many of its bytes were read, as a refusal tells it.
#[derive(Drop)]
pub struct Reader<'a> {
    left: &'a [u8],
    position: u32,
    ghost short: { position + length left.now ≤ 4096 },
}

impl<'a> Reader<'a> {
    // A reader at the start of a tape. Past 4,096 bytes nothing is read.
    #[tactic(auto, using(crate::proofs::Cut::cut))]
    pub fn new(tape: &'a [u8]) -> Reader<'a>
        ensures left { result.left.now ≡ take 4096 tape.now }
        ensures position { result.position ≡ 0 }
    {
        let left = &tape[..LONGEST.min(tape.len())];
        Reader { left, position: 0 }
    }

    // The next frame, past which the reader moves; none at the tape's end. Where it is refused, the reader stays.
    pub fn next(&mut self) -> Result<Option<Frame<'a>>, Refusal>
        ensures answer { meant result ≡ answer self.old.position (said self.old.left.now) }
        ensures left { self.new.left.now ≡ drop (moved (said self.old.left.now)) self.old.left.now }
        ensures position { self.new.position ≡ self.old.position + moved (said self.old.left.now) }
        ensures within { moved (said self.old.left.now) ≤ length self.old.left.now }
        ensures written { ReadAsWritten }
        ensures only { WrittenAsRead }
    {
        let [head, ..] = self.left else {
            return Ok(None);
        };
        let (frame, rest) = decode(*head, self.left, self.position)?;
        self.position += (self.left.len() - rest.len()) as u32;
        self.left = rest;
        Ok(Some(frame))
    }
}

// The frame at the front of a tape whose first byte is the head, and the tape after the frame.
fn decode<'a>(head: u8, tape: &'a [u8], position: u32) -> Result<(Frame<'a>, &'a [u8]), Refusal>
    requires { (0 < length tape.now) × (slice_index tape.now 0 ≡ head) }
    ensures { Decoded position tape.now result }
{
    match (head, tape) {
        _ if tape.len() < fixed_length(head) as usize => Err(Refusal::FrameCutShort { position }),
        (0x10, [_, a, b, rest @ ..]) => {
            let argument = signed16(*a, *b);
            Ok((Frame::Load { argument }, rest))
        }
        (0x20..=0x2f, [_, a, b, c, rest @ ..]) => {
            let reading = signed28(head, *a, *b, *c);
            Ok((Frame::Reading { reading }, rest))
        }
        (0x30..=0x3f, [_, rest @ ..]) => {
            // `let .. else` has the refusal beside what is missing: `ok_or` would say no more.
            let Some((reason, rest)) = rest.split_at_checked((head % 16) as usize) else {
                return Err(Refusal::FrameCutShort { position });
            };
            Ok((Frame::Abort { reason }, rest))
        }
        (0x40..=0x4f, [_, a, b, c, rest @ ..]) => {
            let serial = number28(head, *a, *b, *c);
            Ok((Frame::Withdraw { serial }, rest))
        }
        (0x51, [_, rest @ ..]) => Ok((Frame::Verdict, rest)),
        (0x52, [_, rest @ ..]) => Ok((Frame::Slope, rest)),
        (0x53, [_, a, b, rest @ ..]) => {
            let argument = signed16(*a, *b);
            Ok((Frame::Value { argument }, rest))
        }
        (0x54, [_, rest @ ..]) => Ok((Frame::Tallies, rest)),
        (0x60, [_, rest @ ..]) => Ok((Frame::Clear, rest)),
        _ => Err(Refusal::FrameUnknown { position }),
    }
}
