ghost use Rattle.std.specs.Prelude.{◌≡◌};
ghost use Rattle.refusal.specs.Numbers.{number};
ghost use Rattle.printout.specs.declared.line.Line.TheVariants.{Refused};
ghost use Rattle.player.specs.Lines.{unfiled};

use printout::line::Line;
use refusal::refusal::Refusal;

// The line of a refusal.
pub(crate) fn refused<'a>(refusal: Refusal) -> Line<'a>
    ensures { result ≡ Refused (number refusal) }
{
    Line::Refused {
        number: refusal.number(),
    }
}

// The line of a point that was not filed: a reading that is not taken spoils it.
pub(crate) fn unfiled<'a>(serial: u32, refusal: Refusal) -> Line<'a>
    ensures { result ≡ unfiled serial refusal }
{
    match refusal {
        Refusal::ReadingNotTaken { place, value } => Line::Spoiled {
            serial,
            number: refusal.number(),
            place,
            value,
        },
        other => refused(other),
    }
}
