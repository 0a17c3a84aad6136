ghost use Rattle.std.specs.Prelude.{◌≡◌, ◌<◌, length};
ghost use Rattle.band.specs.Faults.{row_fault, FirstFault};

use crate::row::Row;

// The smallest position at fault, if any: 0 stands for the number of rows, and 17 for the last reading.
pub fn first_fault(rows: &[Row], last: i32) -> Option<u8>
    ensures { FirstFault rows.now last result }
{
    if rows.is_empty() || rows.len() > 16 {
        return Some(0);
    }
    // By index, since a row is held against the one before it.
    if let Some(i) = (0..rows.len()).find(|i| is_at_fault(rows, *i)) {
        return Some(i as u8 + 1);
    }
    if last < rows[rows.len() - 1].first {
        return Some(17);
    }
    None
}

// Whether the row at an index is at fault by itself, or at odds with the one before it.
fn is_at_fault(rows: &[Row], i: usize) -> bool
    requires { i < length rows.now }
    ensures { result ≡ row_fault rows.now i }
{
    !rows[i].in_order() || i > 0 && !rows[i].follows(&rows[i - 1])
}
