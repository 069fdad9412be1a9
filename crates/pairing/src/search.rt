// The search for the candidate that comes first among those whose two tracks are free.
ghost use Rattle.std.specs.Prelude.{◌≡◌, ◌+◌, ◌*◌, ◌≤◌, length};
ghost use Rattle.pairing.specs.Keys.{Shape};
ghost use Rattle.pairing.specs.Private.{look_at, search_row, search};

use crate::{Foremost, NOBODY};

// The best so far, and then the pair of first track i with second track j, which comes after it by index.
#[tactic(auto, unfolding(crate::specs::Private::look_at))]
fn look_at(best: &mut Option<Foremost>, key: f64, i: usize, j: usize)
    ensures { best.new ≡ look_at best.old key i j }
{
    let sooner = match best {
        Some(best) => key < best.key,
        None => key == key,
    };
    if sooner {
        *best = Some(Foremost {
            key,
            first: i,
            second: j,
        });
    }
}

// The best so far, and then the pairs of first track i with the free second tracks.
#[tactic(auto, unfolding(crate::specs::Private::search_row, crate::specs::Keys::key_of))]
fn search_row(keys: &[f64], seconds: &[u8], i: usize, best: &mut Option<Foremost>)
    requires { i * length seconds.now + length seconds.now ≤ length keys.now }
    ensures { best.new ≡ search_row keys.now (length seconds.now) seconds.now i (length seconds.now) best.old }
{
    let n = seconds.len();
    for (j, second) in seconds.iter().enumerate() {
        if *second == NOBODY {
            look_at(best, keys[i * n + j], i, j);
        }
    }
}

// The best of the pairs of free tracks.
#[tactic(auto, unfolding(crate::specs::Private::search))]
pub(crate) fn search(keys: &[f64], firsts: &[u8], seconds: &[u8]) -> Option<Foremost>
    requires { Shape keys.now (length firsts.now) (length seconds.now) firsts.now seconds.now }
    ensures { result ≡ search keys.now (length seconds.now) firsts.now seconds.now (length firsts.now) }
{
    let mut best = None;
    for (i, first) in firsts.iter().enumerate() {
        if *first == NOBODY {
            search_row(keys, seconds, i, &mut best);
        }
    }
    best
}
