ghost use Rattle.std.specs.Prelude.{◌≡◌};
ghost use Rattle.player.specs.Played.{Played, bench};

use crate::printing::{put_line, put_told};
use crate::refusing::refused;
use crate::turn::{close, turn};
use bounded::bounded::Bounded;
use channel::channel::Channel;
use frames::reader::Reader;
use refusal::refusal::Refusal;
use stage::chain::Chain;
use stage::stage::Stage;
use standard::standard_chain;
use step::step::Step;

// Plays a tape on a new channel of that number, on a stage or chain. The printout goes to the front of the buffer: how many bytes it has,
// or a refusal where the buffer has not 80 bytes for each byte of the tape, at most 4,096 of them.
pub fn play_on<S: Stage + Drop>(
    number: u16,
    stage: S,
    tape: &[u8],
    out: &mut [u8],
) -> Result<usize, Refusal>
    ensures { Played (S.meaning stage) number tape.now out.old out.new result }
{
    if out.len() / 80 < tape.len().min(4096) {
        return Err(Refusal::LineNotWritten);
    }
    let mut reader = Reader::new(tape);
    let mut channel = Channel::new(number, stage);
    let mut pending = None;
    // The place in the buffer is a number beside it: a buffer and a place in one struct would need its length kept by every method.
    let mut at = 0;
    let refusal = loop {
        // A frame, the tape's end, or a frame that is refused, whose line is told last: `let .. else` would part only two of these.
        match reader.next() {
            Ok(Some(frame)) => {
                let (point, aborted, line) = turn(&mut channel, pending, frame);
                pending = point;
                at = put_told(&aborted, out, at);
                at = put_line(&line, out, at);
            }
            Ok(None) => break None,
            Err(refusal) => break Some(refusal),
        }
    };
    let interrupted = close(&mut channel, pending);
    let end = put_told(&interrupted, out, at);
    match refusal {
        None => Ok(end),
        Some(refusal) => Ok(put_line(&refused(refusal), out, end)),
    }
}

// Plays a tape on channel 0, on the chain of the bench: the same answers.
pub fn play(tape: &[u8], out: &mut [u8]) -> Result<usize, Refusal>
    ensures { Played bench 0 tape.now out.old out.new result }
{
    play_on(0, standard_chain(), tape, out)
}
