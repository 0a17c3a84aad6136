#![tactic(auto, using(crate::proofs::Making::lines))]

ghost use Rattle.std.specs.Prelude.{◌≡◌, ◌+◌, ◌≤◌, [], None};
ghost use Rattle.book.specs.declared.call.Call.TheVariants as call;
ghost use Rattle.frames.specs.Answers.{meaning as says};
ghost use Rattle.printout.specs.Text.{reason_of};
ghost use Rattle.player.specs.Script.{asked};
ghost use Rattle.player.specs.Steps.{Made, Asked, owed, brings};

use crate::refusing::refused;
use channel::channel::Channel;
use channel::point::Point;
use frames::frame::Frame;
use printout::line::Line;
use questions::verdict::Verdict;
use refusal::refusal::Refusal;
use stage::stage::Stage;

// Deals with a frame where no point is open: the point that it opens, if it does, and its line. A reading or an abort is refused.
pub(crate) fn ask<'a, S: Stage>(
    channel: &mut Channel<S>,
    frame: Frame<'a>,
) -> (Option<Point>, Line<'a>)
    ensures asked { Asked S.meaning channel.old (asked None (says frame.entry)) channel.new result.0 result.1 }
    ensures room { 80 + owed result.0 ≤ brings (says frame.entry) }
    ensures reason { reason_of result.1 ≡ [] }
{
    match frame {
        Frame::Load { argument } => load(channel, argument),
        Frame::Reading { .. } | Frame::Abort { .. } => (None, refused(Refusal::NoOpenPoint)),
        Frame::Withdraw { serial } => (None, withdraw(channel, serial)),
        Frame::Verdict => (None, verdict(channel)),
        Frame::Slope => (None, slope(channel)),
        Frame::Value { argument } => (None, value(channel, argument)),
        Frame::Tallies => (None, tally(channel)),
        Frame::Clear => (None, clear(channel)),
    }
}

// From here on one call each, and the line of what it is told, or of its refusal: `Made` is what their contracts share.

// The point that is opened at an argument, if it is, and the line of that.
fn load<'a, S: Stage>(channel: &mut Channel<S>, argument: i32) -> (Option<Point>, Line<'a>)
    ensures { Made S.meaning channel.old (call.Open argument) [] channel.new result.0 result.1 }
{
    match channel.open(argument) {
        Ok(point) => {
            let serial = point.serial();
            (Some(point), Line::Load { serial, argument })
        }
        Err(refusal) => (None, refused(refusal)),
    }
}

// The line of a withdrawal.
fn withdraw<'a, S: Stage>(channel: &mut Channel<S>, serial: u32) -> Line<'a>
    ensures { Made S.meaning channel.old (call.Withdraw serial) [] channel.new None result }
{
    match channel.withdraw(serial) {
        Ok(serial) => Line::Withdrawn { serial },
        Err(refusal) => refused(refusal),
    }
}

// The line of a clearing.
fn clear<'a, S: Stage>(channel: &mut Channel<S>) -> Line<'a>
    ensures { Made S.meaning channel.old call.Clear [] channel.new None result }
{
    channel.clear();
    Line::Cleared
}

// The line of the tallies.
fn tally<'a, S: Stage>(channel: &Channel<S>) -> Line<'a>
    ensures { Made S.meaning channel.now call.Tallies [] channel.now None result }
{
    let tallies = channel.tallies();
    Line::Tallies {
        opened: tallies.counts.opened,
        filed: tallies.counts.filed,
        spoiled: tallies.counts.spoiled,
        aborted: tallies.counts.aborted,
        open: tallies.open,
        held: tallies.held,
    }
}

// The line of the verdict.
fn verdict<'a, S: Stage>(channel: &Channel<S>) -> Line<'a>
    ensures { Made S.meaning channel.now call.Verdict [] channel.now None result }
{
    match channel.verdict() {
        Ok(Verdict::Line) => Line::Possible,
        Ok(Verdict::Conflict { conflict }) => Line::Conflicting { conflict },
        Err(refusal) => refused(refusal),
    }
}

// The line of the least and the greatest slope.
fn slope<'a, S: Stage>(channel: &Channel<S>) -> Line<'a>
    ensures { Made S.meaning channel.now call.Slope [] channel.now None result }
{
    match channel.slope() {
        Ok((least, greatest)) => Line::slope(least, greatest),
        Err(refusal) => refused(refusal),
    }
}

// The line of the least and the greatest value at an argument.
fn value<'a, S: Stage>(channel: &Channel<S>, argument: i32) -> Line<'a>
    ensures { Made S.meaning channel.now (call.Value argument) [] channel.now None result }
{
    match channel.value(argument) {
        Ok((least, greatest)) => Line::value(least, greatest),
        Err(refusal) => refused(refusal),
    }
}
