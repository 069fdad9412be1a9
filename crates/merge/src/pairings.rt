// The partners of the tracks of two lists, and the three pairings of a merge.
ghost use Rattle.std.specs.Prelude.{◌≡◌, ◌*◌, take};
ghost use Rattle.pairing.specs.Keys.{from_keys};
ghost use Rattle.merge.specs.Merge.{partners_in};
ghost use Rattle.merge.specs.Private.{TwoValues, ThreeValues, KeysFor, terms_of, partners_of, partners_between, pairings_in, paired_values};

use crate::NO_TRACK;
use crate::keys::{Terms, keys_between};
use crate::questions::Sizes;
use pairing::pair_tracks;

// Each track's partner in a pairing, or 255.
#[derive(Clone, Copy)]
pub(crate) struct Partners {
    pub(crate) firsts: [u8; 32],
    pub(crate) seconds: [u8; 32],
}

// The partners of base with ours, base with theirs, and ours with theirs.
#[derive(Clone, Copy)]
pub(crate) struct Pairings {
    pub(crate) base_ours: Partners,
    pub(crate) base_theirs: Partners,
    pub(crate) ours_theirs: Partners,
}

// The partners of m first and n second tracks, by the keys in front of a slice.
fn partners_by(keys: &[f64], m: usize, n: usize) -> Partners
    requires { KeysFor m n keys.now }
    ensures { partners_of result m n ≡ partners_in (from_keys (take (m * n) keys.now) m n) }
{
    let mut firsts = [NO_TRACK; 32];
    let mut seconds = [NO_TRACK; 32];
    let size = m * n;
    pair_tracks(&keys[..size], &mut firsts[..m], &mut seconds[..n]);
    Partners { firsts, seconds }
}

// The partners of m tracks of one list and n of another, among those that are free by their partners in earlier pairings. The keys lie
// in its frame, so that three pairings take room for those of one.
#[tactic(auto, unfolding(crate::specs::Private::partners_between, crate::specs::Merge::partners_in))]
fn pair_lists(
    us: &[f64],
    us_partners: [u8; 32],
    m: usize,
    vs: &[f64],
    vs_partners: [u8; 32],
    n: usize,
    terms: Terms,
) -> Partners
    requires { TwoValues terms us.now m vs.now n }
    ensures { partners_of result m n ≡ partners_between terms us.now us_partners m vs.now vs_partners n }
{
    let mut keys = [0.0f64; 1024];
    keys_between(us, us_partners, m, vs, vs_partners, n, terms, &mut keys);
    partners_by(&keys, m, n)
}

// Pairs base with ours, base with theirs, and then those of ours and of theirs that have no base track.
#[tactic(auto, using(crate::proofs::Matching::Tables::all_paired))]
pub(crate) fn pair_all(
    base_values: &[f64],
    ours_values: &[f64],
    theirs_values: &[f64],
    sizes: Sizes,
    floor: f64,
    gate: f64,
) -> Pairings
    requires { ThreeValues base_values.now ours_values.now theirs_values.now sizes floor gate }
    ensures { pairings_in result sizes ≡ paired_values (terms_of sizes.dimension floor gate) base_values.now ours_values.now theirs_values.now sizes }
{
    let m = sizes.base;
    let n = sizes.ours;
    let l = sizes.theirs;
    let d = sizes.dimension;
    let terms = Terms { d, floor, gate };
    let free = [NO_TRACK; 32];
    let base_ours = pair_lists(base_values, free, m, ours_values, free, n, terms);
    let base_theirs = pair_lists(base_values, free, m, theirs_values, free, l, terms);
    let ours_base = base_ours.seconds;
    let theirs_base = base_theirs.seconds;
    let ours_theirs = pair_lists(
        ours_values,
        ours_base,
        n,
        theirs_values,
        theirs_base,
        l,
        terms,
    );
    Pairings {
        base_ours,
        base_theirs,
        ours_theirs,
    }
}
