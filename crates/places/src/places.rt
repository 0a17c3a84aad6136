ghost use Rattle.std.specs.Prelude.{◌≡◌, [], map, MatchBool, count_by};
ghost use Rattle.std.specs.List.{ContainsAt as Has, list_any};
ghost use Rattle.lines.specs.Sheet.{Measurement};
ghost use Rattle.lines.specs.Mirror.{mirrored as turned};
ghost use Rattle.places.specs.Held.{held};
ghost use Rattle.places.specs.Search.{index, is_open, is_held};

use crate::place::Place;
use crate::status::Status;

// All places of a register.
#[derive(Clone, Copy)]
pub struct Places {
    pub all: [Place; 64],
}

impl Places {
    // The index of the first place of a status.
    pub fn first(&self, status: Status) -> Option<usize>
        ensures { result ≡ index status self.now.all }
    {
        self.all.iter().position(|place| place.has(status))
    }

    // How many places are open. A loop, which is compiled to one pass over many places at a time; a chain that ends in a count or a fold
    // costs 2.5 times as much and more.
    pub fn count_open(&self) -> u32
        ensures { result ≡ count_by is_open self.now.all }
    {
        let mut count = 0;
        for place in &self.all {
            if let Place::Open { .. } = place {
                count += 1;
            }
        }
        count
    }

    // How many places hold a measurement, likewise.
    pub fn count_held(&self) -> u32
        ensures { result ≡ count_by is_held self.now.all }
    {
        let mut count = 0;
        for place in &self.all {
            if let Place::Held { .. } = place {
                count += 1;
            }
        }
        count
    }

    // Whether no place holds a measurement.
    #[tactic(auto, using(crate::proofs::Members::nothing_held))]
    pub fn hold_nothing(&self) -> bool
        ensures { MatchBool result (held self.now.all ≡ []) ((m : Measurement) × Has (held self.now.all) m) }
    {
        !self.hold_some()
    }

    // Whether some place holds a measurement.
    fn hold_some(&self) -> bool
        ensures { result ≡ list_any is_held self.now.all }
    {
        self.all.iter().any(|place| place.is_held())
    }

    // The places with all that they hold turned upside down.
    pub fn mirrored(&self) -> Places
        ensures { held result.all ≡ map turned (held self.now.all) }
    {
        let mut mirrored = *self;
        for place in &mut mirrored.all {
            *place = place.mirrored();
        }
        mirrored
    }
}
