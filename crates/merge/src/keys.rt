// The keys of the pairs of two lists: what candidates are ordered by, and a NaN for any other pair.
ghost use Rattle.std.specs.Prelude.{◌≡◌, ◌*◌, eqb, length};
ghost use Rattle.std.specs.Float.{nan};
ghost use Rattle.kernel.specs.Lists.{tabulate};
ghost use Rattle.dense.specs.Matrix.{row_of};
ghost use Rattle.tracks.specs.Layout.{fields};
ghost use Rattle.pairing.specs.Keys.{nobody, is_free};
ghost use Rattle.merge.specs.Candidates.{candidacy_of, rank};
ghost use Rattle.merge.specs.Private.{OneKey, SomeKeys, KeyRow, TwoValues, KeysInFront, key_from, key_among, keys_from, keys_between};

use crate::NO_TRACK;
use compare::Comparison;
use compare::inside::{compare_tracks, track_covariance};
use dense::shape::row;
use tracks::inside::fields;

// What tracks are compared by: their dimension, the floor and the gate.
#[derive(Clone, Copy)]
pub(crate) struct Terms {
    pub(crate) d: usize,
    pub(crate) floor: f64,
    pub(crate) gate: f64,
}

// What marks a pair that is no candidate: a number, since a table of Options would take twice the memory.
fn no_key() -> f64
    ensures { result ≡ nan }
{
    f64::NAN
}

// The rank of two tracks that are compared.
fn rank(c: Comparison) -> f64
    ensures { result ≡ rank (candidacy_of c) }
{
    match c {
        Comparison::Near(d2) => d2,
        Comparison::Far(_) | Comparison::NoDistance => no_key(),
    }
}

// The key of the track with the state mu and the covariance p, and the track with the fields v. The slice q is room for that track's covariance.
fn key(mu: &[f64], p: &[f64], v: &[f64], terms: Terms, q: &mut [f64]) -> f64
    requires { OneKey terms mu.now p.now v.now q.old }
    ensures { result ≡ key_from terms mu.now p.now v.now }
{
    let d = terms.d;
    track_covariance(v, d, q);
    let c = compare_tracks(mu, &v[..d], p, q, d, terms.floor, terms.gate);
    let comparison = c.comparison;
    rank(comparison)
}

// Writes the keys of one track, with the partner `first` in an earlier pairing, and tracks of the second list, as many as there is room for keys.
#[tactic(auto, using(dense::proofs::Laws::by_entries))]
fn put_keys(
    mu: &[f64],
    p: &[f64],
    first: u8,
    vs: &[f64],
    partners: [u8; 32],
    terms: Terms,
    q: &mut [f64],
    keys: &mut [f64],
)
    requires { SomeKeys terms mu.now p.now vs.now q.old keys.old }
    ensures { keys.new ≡ keys_from terms (eqb first nobody) mu.now p.now vs.now partners (length keys.old) }
{
    let f = fields(terms.d);
    for (j, place) in keys.iter_mut().enumerate() {
        *place = if first == NO_TRACK && partners[j] == NO_TRACK {
            key(mu, p, row(vs, f, j), terms, q)
        } else {
            no_key()
        };
    }
}

// Writes the keys of the track with the fields u, and tracks of the second list, as many as there is room for keys.
fn key_row(u: &[f64], first: u8, vs: &[f64], partners: [u8; 32], terms: Terms, keys: &mut [f64])
    requires { KeyRow terms u.now vs.now keys.old }
    ensures { keys.new ≡ tabulate (length keys.old) (λ j. key_among terms (eqb first nobody) (is_free partners j) u.now (row_of vs.now (fields terms.d) j)) }
{
    let mut p = [0.0f64; 81];
    let mut q = [0.0f64; 81];
    let d = terms.d;
    let size = d * d;
    track_covariance(u, d, &mut p[..size]);
    put_keys(
        &u[..d],
        &p[..size],
        first,
        vs,
        partners,
        terms,
        &mut q[..size],
        keys,
    );
}

// The keys of m tracks of one list and n of another, in m rows of n, in front of room for those of the longest lists.
pub(crate) fn keys_between(
    us: &[f64],
    us_partners: [u8; 32],
    m: usize,
    vs: &[f64],
    vs_partners: [u8; 32],
    n: usize,
    terms: Terms,
    keys: &mut [f64],
)
    requires { TwoValues terms us.now m vs.now n × (length keys.old ≡ 1024) }
    ensures { KeysInFront (m * n) (keys_between terms us.now us_partners m vs.now vs_partners n) keys.new }
{
    let f = fields(terms.d);
    // By `chunks_exact_mut(n)`, which 0 columns do not allow, the proof stays open: of the keys it then knows only
    // how many there are.
    for i in 0..m {
        let u = row(us, f, i);
        let start = i * n;
        let end = start + n;
        key_row(
            u,
            us_partners[i],
            vs,
            vs_partners,
            terms,
            &mut keys[start..end],
        );
    }
}
