ghost use Rattle.std.specs.Prelude.{◌≡◌, ◌+◌, ◌≤◌, true, List, [], ◌∷◌, ◌++◌, length, IfSome};
ghost use Rattle.frames.specs.Tape.{Said};
ghost use Rattle.frames.specs.Answers.{meaning as says};
ghost use Rattle.printout.specs.Text.{text, reason_of};
ghost use Rattle.player.specs.Script.{interrupts, reason as reason_in};
ghost use Rattle.player.specs.Steps.{Continues, Deals, player, idle, told, takes, owed, brings};

use crate::asking::ask;
use crate::ending::{abort, file, interrupt};
use channel::channel::Channel;
use channel::point::Point;
use frames::frame::Frame;
use printout::line::Line;
use stage::stage::Stage;

// Aborts the point that is open, if one is, and tells the line of that: the channel has no point open then.
pub(crate) fn close<'a, S: Stage>(
    channel: &mut Channel<S>,
    pending: Option<Point>,
) -> Option<Line<'a>>
    ensures run { (s : Said) (ss : List Said) → interrupts s ≡ true → Continues S.meaning (player channel.old pending) (s ∷ ss) (idle channel.new) (s ∷ ss) (told result) }
    ensures room { takes result ≤ owed pending }
    ensures reason { IfSome result (λ line. reason_of line ≡ []) }
{
    let point = pending?;
    Some(interrupt(channel, point))
}

// Deals with a frame: the point that is open after it, the line of a point that is aborted before, if one is, and its own line.
pub(crate) fn turn<'a, S: Stage>(
    channel: &mut Channel<S>,
    pending: Option<Point>,
    frame: Frame<'a>,
) -> (Option<Point>, Option<Line<'a>>, Line<'a>)
    ensures run { Deals S.meaning (player channel.old pending) (says frame.entry) (player channel.new result.0) (told result.1 ++ text result.2) }
    ensures room { takes result.1 + 80 + owed result.0 ≤ owed pending + brings (says frame.entry) }
    ensures aborted { IfSome result.1 (λ line. reason_of line ≡ []) }
    ensures reason { length (reason_of result.2) ≤ length (reason_in (says frame.entry)) }
{
    let Some(point) = pending else {
        let (pending, line) = ask(channel, frame);
        return (pending, None, line);
    };
    match frame {
        Frame::Reading { reading } => (None, None, file(channel, point, reading)),
        Frame::Abort { reason } => (None, None, abort(channel, point, reason)),
        _ => {
            let aborted = interrupt(channel, point);
            let (pending, line) = ask(channel, frame);
            (pending, Some(aborted), line)
        }
    }
}
