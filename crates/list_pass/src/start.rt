// Where a list's N row stands.
ghost use Rattle.list_pass.specs.inner.Steps.{StartsAt};

use crate::First;
use list_rows::is_v2;
use text::find;

// The number of the first row, and of the row after `V 2`.
const FIRST_ROW: u16 = 1;

const ROW_AFTER_V2: u16 = 2;

// Finds the N row: the first row, or the second after `V 2`.
pub fn first_row(list: &[u8]) -> First
    ensures { StartsAt list.now result }
{
    let end = find(list, 0, b'\n');
    if !is_v2(&list[0..end]) {
        return First {
            v2: false,
            row: FIRST_ROW,
            start: 0,
        };
    }
    First {
        v2: true,
        row: ROW_AFTER_V2,
        start: list.len().min(end + 1),
    }
}
