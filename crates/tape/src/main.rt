// Plays a tape from standard input, or from the file that is named first, and writes its printout to standard output.
#![tactic(auto)]

ghost use Rattle.std.specs.Prelude.{◌≡◌, ◌+◌, ◌*◌, ◌<◌, ◌≤◌, length, take, drop, Ok, OnOk, IfOk, IfSome};
ghost use Rattle.std.specs.Io.KnownBytes.{Consumes, IsAtEnd};
ghost use Rattle.player.specs.Played.{Played, bench};
ghost use Rattle.tape.specs.Program.{WritesPrintout};

use player::play::play;
use std::alloc::Global;
use std::fs::File;
use std::io::{Read, Write};
use std::process::ExitCode;
use std::{env, io};

// How many bytes of a tape are read.
const TAPE: usize = 4096;

// Plays a tape into a buffer that has room for any printout. A match shows that no refusal comes, where `unwrap` would want a lemma.
fn play_with_room(tape: &[u8], out: &mut [u8]) -> usize
    requires { 80 * TAPE ≤ length out.old }
    ensures { Played bench 0 tape.now out.old out.new (Ok result) }
{
    match play(tape, out) {
        Ok(end) => end,
        Err(_) => unreachable!(),
    }
}

// One read into all the room that a tape has from a place on: how many bytes came.
fn read_at<R: Read>(source: &mut R, tape: &mut [u8], at: usize) -> io::Result<usize>
    requires { at < length tape.old }
    ensures front { take at tape.new ≡ take at tape.old }
    ensures fits { IfOk result (λ n. at + n ≤ length tape.new) }
    ensures bytes { IfOk result (λ n. Consumes (R.remaining source.old) (R.remaining source.new) (take n (drop at tape.new))) }
    ensures end { IfOk result (λ n. n ≡ 0 → IsAtEnd (R.remaining source.new)) }
{
    source.read(&mut tape[at..])
}

// Reads a tape from a source, until it ends or the room is full, and tells how many bytes there are. Each read asks for all the room
// that is left, since a source of packets loses what is not asked for; one that is interrupted is told, and not tried again.
fn read_tape<R: Read>(source: &mut R, tape: &mut [u8; TAPE]) -> anyhow::Result<usize>
    ensures within { IfOk result (λ n. n ≤ TAPE) }
    ensures bytes { IfOk result (λ n. IfSome (R.remaining source.old) (λ all. take n tape.new ≡ take TAPE all)) }
{
    let mut length = 0;
    while length < TAPE {
        let read = read_at(source, tape, length)?;
        if read == 0 {
            return Ok(length);
        }
        length += read;
    }
    Ok(length)
}

// Writes the printout of a tape to a sink.
fn write_printout<W: Write>(tape: &[u8], out: &mut [u8], sink: &mut W) -> anyhow::Result<()>
    requires { 80 * TAPE ≤ length out.old }
    ensures { OnOk result (WritesPrintout tape.now (W.contents sink.old) (W.contents sink.new)) }
{
    let end = play_with_room(tape, out);
    sink.write_all(&out[..end])?;
    Ok(())
}

// Plays the tape that a source has, and writes its printout to a sink.
fn play_through<R: Read, W: Write>(
    alloc: Global,
    source: &mut R,
    sink: &mut W,
) -> anyhow::Result<()>
    ensures { OnOk result (IfSome (R.remaining source.old) (λ all. WritesPrintout (take TAPE all) (W.contents sink.old) (W.contents sink.new))) }
{
    let mut tape = [0u8; TAPE];
    let length = read_tape(source, &mut tape)?;
    let mut out = vec![in alloc; 0u8; 80 * TAPE]?;
    write_printout(&tape[..length], &mut out, sink)
}

// Plays the tape in a file, or says why the file cannot be read.
fn play_file(rt: &HostRuntime, path: &str) -> anyhow::Result<ExitCode> {
    match File::open(rt, path) {
        Ok(mut file) => play_through(rt.alloc(), &mut file, &mut rt.stdout())?,
        Err(error) => {
            eprintln!(rt; "tape: {path} cannot be read: {error}")?;
            return Ok(ExitCode::FAILURE);
        }
    }
    Ok(ExitCode::SUCCESS)
}

fn run(rt: &HostRuntime) -> anyhow::Result<ExitCode> {
    match env::args(rt)?.nth(1) {
        Some(path) => play_file(rt, path.as_str()),
        None => {
            play_through(rt.alloc(), &mut rt.stdin(), &mut rt.stdout())?;
            Ok(ExitCode::SUCCESS)
        }
    }
}

fn main(rt: HostRuntime) -> anyhow::Result<ExitCode> {
    match run(&rt) {
        Ok(code) => Ok(code),
        Err(error) => {
            eprintln!(rt; "tape: {error}")?;
            Ok(ExitCode::FAILURE)
        }
    }
}
