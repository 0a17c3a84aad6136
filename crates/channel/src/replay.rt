ghost use Rattle.std.specs.Prelude.{◌≡◌, min, length, take, drop};
ghost use Rattle.book.specs.Rows.{answered};
ghost use Rattle.register.specs.Page.{page};
ghost use Rattle.channel.specs.Runs.{Whole};
ghost use Rattle.channel.specs.Steps.{Performs};
ghost use Rattle.channel.specs.Told as told;

use crate::channel::Channel;
use crate::point::Point;
use book::answer::Answer;
use book::call::Call;
use exact::fraction::Fraction;
use questions::verdict::Verdict;
use refusal::refusal::Refusal;
use stage::stage::Stage;

// Makes one call, a point by the number and the serial that it bears.
fn perform<S: Stage>(channel: &mut Channel<S>, call: Call) -> Result<Answer, Refusal>
    ensures { Performs S.meaning channel.old call result channel.new }
{
    match call {
        Call::Open { argument } => {
            let Point { number, serial } = channel.open(argument)?;
            Ok(Answer::Opened { number, serial })
        }
        Call::File {
            number,
            serial,
            reading,
        } => {
            let filed = channel.file(Point { number, serial }, reading)?;
            Ok(Answer::Filed {
                serial: filed.serial,
                lower: filed.set.lower,
                upper: filed.set.upper,
            })
        }
        Call::Abort { number, serial } => {
            let serial = channel.abort(Point { number, serial })?;
            Ok(Answer::Aborted { serial })
        }
        Call::Withdraw { serial } => {
            let serial = channel.withdraw(serial)?;
            Ok(Answer::Withdrawn { serial })
        }
        Call::Clear => {
            channel.clear();
            Ok(Answer::Cleared)
        }
        Call::Verdict => channel.verdict().map(|verdict| match verdict {
            Verdict::Line => Answer::Line,
            Verdict::Conflict { conflict } => Answer::Conflicting { conflict },
        }),
        Call::Slope => channel
            .slope()
            .map(|(least, greatest)| Answer::Slope { least, greatest }),
        Call::Value { argument } => channel
            .value(argument)
            .map(|(least, greatest)| Answer::Value { least, greatest }),
        Call::Tallies => Ok(Answer::Counted {
            tallies: channel.tallies(),
        }),
    }
}

// Makes a list of calls on a new channel and notes the answer to each, as many as there is room for.
pub fn replay<S: Stage>(
    number: u16,
    stage: S,
    calls: &[Call],
    answers: &mut [Result<Answer, Refusal>],
) -> Channel<S>
    ensures number { result.number ≡ number }
    ensures stage { result.stage ≡ stage }
    ensures run { let n = min (length calls.now) (length answers.old) in Whole (S.meaning stage) number (take n calls.now) (take n answers.new) (page result.register) }
    ensures rest { let n = min (length calls.now) (length answers.old) in drop n answers.new ≡ drop n answers.old }
{
    let mut channel = Channel::new(number, stage);
    let count = calls.len().min(answers.len());
    // By index: with `iter_mut` and `zip` nothing is known of the elements, and the proof did not close.
    for i in 0..count {
        answers[i] = perform(&mut channel, calls[i]);
    }
    channel
}
