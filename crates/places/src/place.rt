ghost use Rattle.std.specs.Prelude.{◌≡◌, map};
ghost use Rattle.lines.specs.Mirror.{mirrored as turned};
ghost use Rattle.places.specs.Samples.{sampled, adds};
ghost use Rattle.places.specs.Search.{has, held_with, is_open, is_held};
ghost use Rattle.places.specs.declared.place.Place.TheVariants.{Free};

use crate::sample::Sample;
use crate::status::Status;
use exact::argument::Argument;
use exact::set::UncertaintySet;

// A place is free, open for a reading at an argument, or holds a measurement.
#[derive(Clone, Copy)]
pub enum Place {
    Free,
    Open {
        serial: u32,
        argument: Argument,
    },
    Held {
        serial: u32,
        argument: Argument,
        reading: i32,
        set: UncertaintySet,
    },
}

impl Place {
    // Whether the place has a status.
    pub fn has(&self, status: Status) -> bool
        ensures { result ≡ has status self.now }
    {
        match (status, self) {
            (Status::Free, Place::Free) => true,
            (Status::Open { serial: wanted }, Place::Open { serial, .. }) => *serial == wanted,
            (Status::Held { serial: wanted }, Place::Held { serial, .. }) => *serial == wanted,
            _ => false,
        }
    }

    // Whether it waits for a reading.
    pub fn is_open(&self) -> bool
        ensures { result ≡ is_open self.now }
    {
        matches!(self, Place::Open { .. })
    }

    // Whether it holds a measurement.
    pub fn is_held(&self) -> bool
        ensures { result ≡ is_held self.now }
    {
        matches!(self, Place::Held { .. })
    }

    // Turns an open place into one that holds a reading and its uncertainty set; any other stays.
    pub fn hold(&mut self, reading: i32, set: UncertaintySet)
        ensures { self.new ≡ held_with reading set self.old }
    {
        if let Place::Open { serial, argument } = *self {
            *self = Place::Held {
                serial,
                argument,
                reading,
                set,
            };
        }
    }

    // Frees the place.
    pub fn release(&mut self)
        ensures { self.new ≡ Free }
    {
        *self = Place::Free;
    }

    // What the place holds; nothing where it is free or open.
    pub fn sample(&self) -> Option<Sample>
        ensures { result ≡ sampled self.now }
    {
        match *self {
            Place::Held {
                serial,
                argument,
                set,
                ..
            } => Some(Sample {
                serial,
                argument,
                set,
            }),
            _ => None,
        }
    }

    // The place with what it holds turned upside down.
    pub fn mirrored(&self) -> Place
        ensures { adds (sampled result) ≡ map turned (adds (sampled self.now)) }
    {
        match *self {
            Place::Held {
                serial,
                argument,
                reading,
                set,
            } => Place::Held {
                serial,
                argument,
                reading,
                set: set.mirrored(),
            },
            other => other,
        }
    }
}
