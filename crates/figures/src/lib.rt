#![tactic(auto)]

ghost use Rattle.std.specs.Prelude.{◌≡◌, pos, negsuc, Ok, Err};
ghost use Rattle.figures.specs.Figures.{LineFigures, TallyFigures};

use bounded::bounded::Bounded;
use stage::not_taken::NotTaken;
use stage::stage::Stage;
use standard::standard_chain;

// What the stages answer in the worked figures.
#[derive(Clone, Copy)]
pub struct StageFigures {
    // the absolute limit 20 and the relative limit 1,000, at the readings -100, 10, 99,899,980 and 99,899,981
    pub below: Result<(i32, i32), NotTaken>,
    pub around: Result<(i32, i32), NotTaken>,
    pub greatest: Result<(i32, i32), NotTaken>,
    pub beyond: Result<(i32, i32), NotTaken>,
    // the absolute limit 0 and the relative limit 100,000, at the reading 1,000
    pub relative: Result<(i32, i32), NotTaken>,
    // the chain of the bench, at the reading 9,999,999
    pub chain: Result<(i32, i32), NotTaken>,
}

// The worked figures: those of the stages told by the stages themselves, those of lines and tallies from the definitions.
pub fn worked_figures() -> StageFigures
    ensures below { result.below ≡ Ok (negsuc 120, negsuc 78) }
    ensures around { result.around ≡ Ok (negsuc 10, pos 31) }
    ensures greatest { result.greatest ≡ Ok (pos 99800159, pos 100000000) }
    ensures beyond { result.beyond ≡ Err (record { place = 1; value = pos 99899981 }) }
    ensures relative { result.relative ≡ Ok (pos 909, pos 1112) }
    ensures chain { result.chain ≡ Err (record { place = 2; value = pos 99999985 }) }
    ensures lines { LineFigures }
    ensures tallies { TallyFigures }
{
    let bounded = Bounded {
        absolute: 20,
        relative: 1_000,
    };
    let proportional = Bounded {
        absolute: 0,
        relative: 100_000,
    };
    let chain = standard_chain();
    StageFigures {
        below: bounded.ask(-100),
        around: bounded.ask(10),
        greatest: bounded.ask(99_899_980),
        beyond: bounded.ask(99_899_981),
        relative: proportional.ask(1_000),
        chain: chain.ask(9_999_999),
    }
}
