ghost use Rattle.std.specs.Prelude.{◌≡◌, ◌≤◌, [], ◌∷◌, take, length, pos};
ghost use Rattle.band.specs.Faults.{Faultless};
ghost use Rattle.band.specs.Rows.{row_at};

use crate::fault::first_fault;
use crate::row::{Row, ZERO};
use stage::not_taken::NotTaken;
use stage::out_of_limits::OutOfLimits;
use stage::stage::Stage;

// The rows in use, the first `count` of 16, and the last reading that is taken. The rows lie in an array with their count and in no
// vector, so that a band is Copy and needs no heap.
#[derive(Clone, Copy)]
pub struct Band {
    pub rows: [Row; 16],
    pub count: usize,
    pub last: i32,
    ghost few: { count ≤ 16 },
    ghost sound: { Faultless (take count rows) last },
}

impl Band {
    ghost use Rattle.band.specs.Faults.{zeros};
    ghost use Rattle.band.specs.Setting.{rows_of, Set};

    // A band of one row of zeros, with the last reading 0.
    pub fn new() -> Band
        ensures rows { rows_of result ≡ zeros ∷ [] }
        ensures last { result.last ≡ pos 0 }
    {
        Band {
            rows: [ZERO; 16],
            count: 1,
            last: 0,
        }
    }

    // Replaces the whole band, or refuses with the smallest position at fault and leaves it.
    pub fn set(&mut self, rows: &[Row], last: i32) -> Result<(), OutOfLimits>
        ensures { Set rows.now last self.old result self.new }
    {
        if let Some(position) = first_fault(rows, last) {
            return Err(OutOfLimits { position });
        }
        *self = Band {
            rows: padded(rows),
            count: rows.len(),
            last,
        };
        Ok(())
    }

    // The rows in use.
    fn in_use(&self) -> &[Row]
        ensures { result.now ≡ rows_of self.now }
    {
        &self.rows[..self.count]
    }
}

// At most 16 rows, with rows of zeros behind them.
fn padded(rows: &[Row]) -> [Row; 16]
    requires { length rows.now ≤ 16 }
    ensures { take (length rows.now) result ≡ rows.now }
{
    let mut table = [ZERO; 16];
    table[..rows.len()].copy_from_slice(rows);
    table
}

// The last row whose first reading is not above the reading. A fold, as it is defined: a search by halves would ask for rising rows.
fn row_at(rows: &[Row], reading: i32) -> Row
    ensures { result ≡ row_at rows.now reading }
{
    rows.iter().fold(
        ZERO,
        |found, row| if row.first <= reading { *row } else { found },
    )
}

impl Stage for Band {
    ghost use Rattle.band.specs.Setting.{rows_of};
    ghost use Rattle.band.specs.Rows.{banded};
    ghost use Rattle.band.specs.Climbing.{banded_sound};

    ghost meaning = { λ b. banded (rows_of b) b.last };

    ghost sound = { λ b. banded_sound (rows_of b) b.last b.sound };

    fn count(&self) -> u8 {
        1
    }

    fn ask(&self, reading: i32) -> Result<(i32, i32), NotTaken> {
        let rows = self.in_use();
        if reading < rows[0].first || reading > self.last {
            return Err(NotTaken {
                place: 1,
                value: reading,
            });
        }
        let row = row_at(rows, reading);
        Ok((row.lower, row.upper))
    }
}
