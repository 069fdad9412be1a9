// The rows of a merge in the caller's buffer: by the pairings first, then their verdicts by the lists' records, and their counts.
ghost use Rattle.std.specs.Prelude.{◌≡◌};
ghost use Rattle.merge.specs.Merge.{counts_of, rows_left};
ghost use Rattle.merge.specs.Private.{verdict_held, rows_by, ToWrite};

use crate::Counts;
use crate::counting::count_rows;
use crate::pairings::Pairings;
use crate::questions::Sizes;
use crate::rows::write_rows;
use crate::verdict::{Lists, write_verdicts};

// Writes the rows of three lists of these sizes, paired like this, and counts them.
pub(crate) fn write_merge(lists: Lists, sizes: Sizes, pairings: Pairings, rows: &mut [u8]) -> Counts
    requires { ToWrite lists sizes pairings rows.old }
    ensures value { result ≡ counts_of (rows_by (verdict_held lists.entry) pairings sizes) }
    ensures rows_after { rows.new ≡ rows_left (rows_by (verdict_held lists.entry) pairings sizes) rows.old }
{
    let total = write_rows(pairings, sizes, rows);
    write_verdicts(lists, total, rows);
    count_rows(rows, total)
}
