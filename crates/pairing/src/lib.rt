// The one stable pairing of two lists of tracks, by keys: for the merge alone.
#![tactic(auto)]

ghost use Rattle.std.specs.Prelude.{◌≡◌, ◌≤◌, length};
ghost use Rattle.pairing.specs.Keys.{Shape, from_keys, first_partners, second_partners};

mod search;

// Stands for no partner in a table of partners, and for no track in a row of the merge: a byte, since C reads a row's
// bytes, and an entry goes into a row as it is.
pub const NOBODY: u8 = 255;

// The pair that comes first of those looked at, and its key.
#[derive(Clone, Copy, Debug)]
pub struct Foremost {
    pub key: f64,
    pub first: usize,
    pub second: usize,
}

// Writes the partner of each first and of each second track, or 255. The keys stand in a row of second tracks for each first track, and a NaN marks a pair that is no candidate.
pub fn pair_tracks(keys: &[f64], firsts: &mut [u8], seconds: &mut [u8])
    requires { (length firsts.old ≤ 32) × (length seconds.old ≤ 32) × Shape keys.now (length firsts.old) (length seconds.old) firsts.old seconds.old }
    ensures { (firsts.new ≡ first_partners (from_keys keys.now (length firsts.old) (length seconds.old)))
        × (seconds.new ≡ second_partners (from_keys keys.now (length firsts.old) (length seconds.old))) }
{
    firsts.fill(NOBODY);
    seconds.fill(NOBODY);
    while let Some(best) = search::search(keys, firsts, seconds) {
        let i = best.first;
        let j = best.second;
        firsts[i] = j as u8;
        seconds[j] = i as u8;
    }
}
