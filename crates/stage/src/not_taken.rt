ghost use Rattle.std.specs.Prelude.{◌≡◌, ◌+◌};
ghost use Rattle.refusal.specs.declared.refusal.Refusal.TheVariants.{ReadingNotTaken};

use refusal::refusal::Refusal;

// A reading that a stage does not take: the place of that stage, counted from the reading, and the value that it was handed.
#[derive(Clone, Copy, PartialEq, Eq, Debug)]
pub struct NotTaken {
    pub place: u8,
    pub value: i32,
}

impl NotTaken {
    ghost use Rattle.stage.specs.Meaning.{told};

    // As a chain passes it on, with the stages above counted too.
    pub fn below(self, above: u8) -> NotTaken
        ensures { result ≡ record self { place = told (self.place + above) } }
    {
        NotTaken {
            place: self.place.saturating_add(above),
            value: self.value,
        }
    }
}

// Written out, since what a derive writes has no contract.
impl From<NotTaken> for Refusal {
    ghost from_gives = { λ e refusal. refusal ≡ ReadingNotTaken e.place e.value };

    fn from(e: NotTaken) -> Refusal {
        Refusal::ReadingNotTaken {
            place: e.place,
            value: e.value,
        }
    }
}
