ghost use Rattle.std.specs.Prelude.{◌≡◌, ◌+◌, ◌≤◌, [], length, IfSome};
ghost use Rattle.printout.specs.Text.{text, reason_of};
ghost use Rattle.player.specs.Steps.{Prints, told, takes};

use printout::line::Line;
use printout::printing::print;

// Prints a line from a place on, and tells the place after it.
pub(crate) fn put_line(line: &Line, out: &mut [u8], at: usize) -> usize
    requires { (at + 80 ≤ length out.old) × (length (reason_of line.now) ≤ 15) }
    ensures prints { Prints (text line.now) out.old at out.new result }
    ensures room { result ≤ at + 80 }
{
    at + print(line, &mut out[at..]).unwrap()
}

// The same for a line that is perhaps told: where none is, the place stays.
pub(crate) fn put_told(line: &Option<Line>, out: &mut [u8], at: usize) -> usize
    requires { (at + takes line.now ≤ length out.old) × IfSome line.now (λ line. reason_of line ≡ []) }
    ensures prints { Prints (told line.now) out.old at out.new result }
    ensures room { result ≤ at + takes line.now }
{
    match line {
        Some(line) => put_line(line, out, at),
        None => at,
    }
}
