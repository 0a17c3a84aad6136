#![tactic(auto, using(crate::proofs::Making::lines))]

ghost use Rattle.std.specs.Prelude.{[], None};
ghost use Rattle.book.specs.declared.call.Call.TheVariants as call;
ghost use Rattle.player.specs.Steps.{Made};

use crate::refusing::{refused, unfiled};
use channel::channel::Channel;
use channel::point::Point;
use printout::line::Line;
use stage::stage::Stage;

// Ends a point by a reading: the line of its set, or of why it is not filed.
pub(crate) fn file<'a, S: Stage>(channel: &mut Channel<S>, point: Point, reading: i32) -> Line<'a>
    ensures { Made S.meaning channel.old (call.File point.number point.serial reading) [] channel.new None result }
{
    let serial = point.serial();
    match channel.file(point, reading) {
        Ok(filed) => Line::Set {
            serial: filed.serial,
            lower: filed.set.lower,
            upper: filed.set.upper,
        },
        Err(refusal) => unfiled(serial, refusal),
    }
}

// Ends a point without a reading, for a reason: the line of that, or of its refusal.
pub(crate) fn abort<'a, S: Stage>(
    channel: &mut Channel<S>,
    point: Point,
    reason: &'a [u8],
) -> Line<'a>
    ensures { Made S.meaning channel.old (call.Abort point.number point.serial) reason.now channel.new None result }
{
    match channel.abort(point) {
        Ok(serial) => Line::Aborted { serial, reason },
        Err(refusal) => refused(refusal),
    }
}

// The line of a point that something else interrupts: it is aborted, for an empty reason.
pub(crate) fn interrupt<'a, S: Stage>(channel: &mut Channel<S>, point: Point) -> Line<'a>
    ensures { Made S.meaning channel.old (call.Abort point.number point.serial) [] channel.new None result }
{
    abort(channel, point, b"")
}
