// For the project's own crates, which know that a dimension is one of a list: no question is asked again.
ghost use Rattle.std.specs.Prelude.{◌≡◌, ◌+◌, ◌≤◌, length};
ghost use Rattle.tracks.specs.Layout.{fields};
ghost use Rattle.tracks.specs.Write.{record_of};
ghost use Rattle.tracks.specs.Private.{track_of_doubles, Writes};

use crate::write::write_record;

// How many fields a track of dimension d has.
#[tactic(auto, using(crate::proofs::Numbers::Fields::most_fields, crate::proofs::Numbers::Fields::widest_fields), unfolding(crate::specs::Layout::fields))]
pub fn fields(d: usize) -> usize
    requires { d ≤ 16 }
    ensures { (result ≡ fields d) × (result ≤ 152) × (d ≤ 9 → result ≤ 54) }
{
    d + d * (d + 1) / 2
}

// Writes the own bytes of a track of dimension d into a buffer from an offset on, and gives the offset after them.
pub fn write_track(v: &[f64], d: usize, out: &mut [u8], at: usize) -> usize
    requires { (d ≤ 9) × (at + length (record_of d (track_of_doubles v.now)) ≤ length out.old) }
    ensures { Writes (record_of d (track_of_doubles v.now)) out.old at result out.new }
{
    write_record(v, d, out, at)
}
