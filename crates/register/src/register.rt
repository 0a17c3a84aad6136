ghost use Rattle.std.specs.Prelude.{◌≡◌, ◌+◌, ◌≤◌, length, count_by};
ghost use Rattle.book.specs.Limits.{place_count, last_serial};
ghost use Rattle.book.specs.Book.{blank, cleared, opens_next, opens_told, files_next, files_told, aborts_next, aborts_told, withdraws_next, withdraws_told, tallies};
ghost use Rattle.places.specs.Search.{is_open};
ghost use Rattle.stage.specs.Meaning.{ends};

use book::tallies::{Counts, Tallies};
use exact::argument::Argument;
use exact::set::UncertaintySet;
use places::place::Place;
use places::places::Places;
use places::status::Status;
use refusal::refusal::Refusal;
use stage::measure::measure;
use stage::stage::Stage;

// Nothing was counted.
const NOTHING_COUNTED: Counts = Counts {
    opened: 0,
    filed: 0,
    spoiled: 0,
    aborted: 0,
};

// The places, the last serial that was given, and the counts since the last clearing.
#[derive(Drop)]
pub struct Register {
    places: Places,
    last: u32,
    counts: Counts,
    ghost long: { length places.all ≡ place_count },
    ghost few: { last ≤ last_serial },
    ghost given: { counts.opened ≤ last },
    ghost ended: { counts.filed + counts.spoiled + counts.aborted + count_by is_open places.all ≡ counts.opened },
}

#[tactic(auto, using(crate::proofs::Pages::pages))]
impl Register {
    ghost use Rattle.register.specs.Page.{page};

    // A register with nothing in it.
    pub fn new() -> Register
        ensures { page result ≡ blank }
    {
        Register {
            places: Places {
                all: [Place::Free; 64],
            },
            last: 0,
            counts: NOTHING_COUNTED,
        }
    }

    // Opens the first free place at an argument, and tells its serial.
    pub fn open(&mut self, argument: Argument) -> Result<u32, Refusal>
        ensures page { page self.new ≡ opens_next (page self.old) argument.value }
        ensures told { result ≡ opens_told (page self.old) }
    {
        // The last serial that is given.
        const LAST_SERIAL: u32 = 200_000_000;
        let i = self.places.first(Status::Free).ok_or(Refusal::NoFreePlace)?;
        if self.last >= LAST_SERIAL {
            return Err(Refusal::NoSerialLeft);
        }
        let serial = self.last + 1;
        self.places.all[i] = Place::Open { serial, argument };
        self.last = serial;
        self.counts.opened += 1;
        Ok(serial)
    }

    // Ends an open point by a reading: its place holds the reading's set, or is freed where the reading is not taken.
    pub fn file<S: Stage>(
        &mut self,
        stage: &S,
        serial: u32,
        reading: i32,
    ) -> Result<UncertaintySet, Refusal>
        ensures page { page self.new ≡ files_next (S.meaning stage.now) (page self.old) serial reading }
        ensures told { ends result ≡ files_told (S.meaning stage.now) (page self.old) serial reading }
    {
        let i = self
            .places
            .first(Status::Open { serial })
            .ok_or(Refusal::PointNotOpen)?;
        match measure(stage, reading) {
            Ok(set) => {
                self.places.all[i].hold(reading, set);
                self.counts.filed += 1;
                Ok(set)
            }
            Err(refused) => {
                self.places.all[i].release();
                self.counts.spoiled += 1;
                Err(refused.into())
            }
        }
    }

    // Ends an open point without a reading.
    pub fn abort(&mut self, serial: u32) -> Result<(), Refusal>
        ensures page { page self.new ≡ aborts_next (page self.old) serial }
        ensures told { result ≡ aborts_told (page self.old) serial }
    {
        let i = self
            .places
            .first(Status::Open { serial })
            .ok_or(Refusal::PointNotOpen)?;
        self.places.all[i].release();
        self.counts.aborted += 1;
        Ok(())
    }

    // Takes out a held measurement.
    pub fn withdraw(&mut self, serial: u32) -> Result<(), Refusal>
        ensures page { page self.new ≡ withdraws_next (page self.old) serial }
        ensures told { result ≡ withdraws_told (page self.old) serial }
    {
        let i = self
            .places
            .first(Status::Held { serial })
            .ok_or(Refusal::SerialNotHeld)?;
        self.places.all[i].release();
        Ok(())
    }

    // Frees all places and starts the tallies again; serials go on.
    pub fn clear(&mut self)
        ensures { page self.new ≡ cleared (page self.old).last }
    {
        self.places = Places {
            all: [Place::Free; 64],
        };
        self.counts = NOTHING_COUNTED;
    }

    // What happened since the last clearing, and what is open and held now.
    pub fn tallies(&self) -> Tallies
        ensures { result ≡ tallies (page self.now) }
    {
        Tallies {
            counts: self.counts,
            open: self.places.count_open(),
            held: self.places.count_held(),
        }
    }

    // The places, for the questions about lines.
    pub fn places(&self) -> &Places
        ensures { result.now ≡ self.now.places }
    {
        &self.places
    }
}
