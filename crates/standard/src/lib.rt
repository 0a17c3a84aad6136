#![tactic(auto)]

ghost use Rattle.std.specs.Prelude.{◌≡◌};

use bounded::bounded::Bounded;
use stage::chain::Chain;
use step::step::Step;

// The chain of the bench: a display of step 10 on a bounded stage with the absolute limit 20 and the relative limit 1,000.
pub fn standard_chain() -> Chain<Step, Bounded>
    ensures step { result.upper.size ≡ 10 }
    ensures absolute { result.lower.absolute ≡ 20 }
    ensures relative { result.lower.relative ≡ 1000 }
{
    Chain {
        upper: Step { size: 10 },
        lower: Bounded {
            absolute: 20,
            relative: 1_000,
        },
    }
}
