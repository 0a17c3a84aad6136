ghost use Rattle.std.specs.Prelude.{◌≡◌, ◌≤◌, ◌++◌, length, drop, IfOk, if◌then◌else◌, Ok, Err};
ghost use Rattle.refusal.specs.declared.refusal.Refusal.TheVariants.{LineNotWritten};
ghost use Rattle.printout.specs.Decimal.{ReadsBack};
ghost use Rattle.printout.specs.Text.{text, reason_of, refused};

use crate::line::Line;
use crate::wording::{ROOM, Text};
use refusal::refusal::Refusal;

// A line, from its last byte to its first.
fn whole(line: &Line) -> Text
    requires { length (reason_of line.now) ≤ 15 }
    ensures text { result ≡ text line.now }
    ensures room { length result ≤ ROOM }
{
    let mut whole = Text::end();
    match *line {
        Line::Load { serial, argument } => {
            whole.signed(argument as i64);
            whole.count(serial);
            whole.word("load");
        }
        Line::Set {
            serial,
            lower,
            upper,
        } => {
            whole.signed(upper as i64);
            whole.signed(lower as i64);
            whole.count(serial);
            whole.word("set");
        }
        Line::Spoiled {
            serial,
            number,
            place,
            value,
        } => {
            whole.signed(value as i64);
            whole.count(place as u32);
            whole.count(number as u32);
            whole.count(serial);
            whole.word("spoiled");
        }
        Line::Aborted { serial, reason } => {
            whole.remark(reason);
            whole.count(serial);
            whole.word("aborted");
        }
        Line::Withdrawn { serial } => {
            whole.count(serial);
            whole.word("withdrawn");
        }
        Line::Possible => whole.word("line"),
        Line::Conflicting { conflict } => {
            if let Some(third) = conflict.third {
                whole.count(third);
            }
            whole.count(conflict.second);
            whole.count(conflict.first);
            whole.word("conflict");
        }
        Line::Slope { least, greatest } => {
            whole.signed(greatest);
            whole.signed(least);
            whole.word("slope");
        }
        Line::Value { least, greatest } => {
            whole.signed(greatest);
            whole.signed(least);
            whole.word("value");
        }
        Line::Tallies {
            opened,
            filed,
            spoiled,
            aborted,
            open,
            held,
        } => {
            whole.count(held);
            whole.count(open);
            whole.count(aborted);
            whole.count(spoiled);
            whole.count(filed);
            whole.count(opened);
            whole.word("tallies");
        }
        Line::Cleared => whole.word("cleared"),
        Line::Refused { number } => {
            whole.count(number as u32);
            whole.word("refused");
        }
    }
    whole
}

// The line at the front of the buffer, and how many bytes it has. Any line with a reason of at most 15 bytes has room in 80 bytes.
pub fn print(line: &Line, buffer: &mut [u8]) -> Result<usize, Refusal>
    ensures answer { result ≡ (if refused line.now buffer.old then Err LineNotWritten else Ok (length (text line.now))) }
    ensures bytes { buffer.new ≡ (if refused line.now buffer.old then buffer.old else text line.now ++ drop (length (text line.now)) buffer.old) }
    ensures room { IfOk result (λ n. n ≤ 80) }
    ensures numbers { ReadsBack }
{
    // The bytes that a buffer has at least.
    const LEAST: usize = 80;
    // The bytes that a reason has at most.
    const LONGEST: usize = 15;
    if buffer.len() < LEAST {
        return Err(Refusal::LineNotWritten);
    }
    if let Line::Aborted { reason, .. } = line {
        if reason.len() > LONGEST {
            return Err(Refusal::LineNotWritten);
        }
    }
    let whole = whole(line);
    let text = whole.as_bytes();
    buffer[..text.len()].copy_from_slice(text);
    Ok(text.len())
}
