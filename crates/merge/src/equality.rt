// Whether two tracks are equal: their records, as parts of their lists, have the same bytes.
ghost use Rattle.std.specs.Prelude.{◌≡◌, ◌&&◌};
ghost use Rattle.merge.specs.Tracks.{equal_tracks};
ghost use Rattle.merge.specs.Rows.{is_track};
ghost use Rattle.merge.specs.Private.{held, TwoIndices};

use crate::NO_TRACK;
use tracks::record::{same_record, track_record};

// A list, and where its tracks start and the last one ends.
#[derive(Clone, Copy)]
pub(crate) struct Placed<'a> {
    pub(crate) list: &'a [u8],
    pub(crate) offsets: &'a [usize],
}

// Whether track i of one list and track j of another are there and have equal records. No derive or `==` of std does
// this, since a track is no value here: it asks first whether both are there, and finds their records by the offsets.
#[tactic(auto, using(crate::proofs::Readings::Located::compared))]
pub(crate) fn same_tracks(a: Placed, i: u8, b: Placed, j: u8) -> bool
    requires { TwoIndices a.list.now a.offsets.now i b.list.now b.offsets.now j }
    ensures { result ≡ (is_track i && (is_track j && equal_tracks (held a.entry.list.now) i (held b.entry.list.now) j)) }
{
    if i == NO_TRACK || j == NO_TRACK {
        return false;
    }
    let x = track_record(a.list, a.offsets, i as usize);
    let y = track_record(b.list, b.offsets, j as usize);
    same_record(x, y)
}
