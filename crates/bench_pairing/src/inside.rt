// The pairing for a caller that knows the lengths: what the program in bench/ calls, and no user does.
ghost use Rattle.std.specs.Prelude.{◌≡◌, ◌≤◌};
ghost use Rattle.pairing.specs.Keys.{Shape, from_keys, first_partners, second_partners};

use pairing::pair_tracks;

// `pair_tracks` of the crate `pairing`, and what it asks of its lengths.
#[unsafe(no_mangle)]
pub extern "C" fn bench_pair_tracks(
    keys: &[f64],
    m: usize,
    n: usize,
    firsts: &mut [u8],
    seconds: &mut [u8],
)
    requires { (m ≤ 32) × (n ≤ 32) × Shape keys.now m n firsts.old seconds.old }
    ensures { (firsts.new ≡ first_partners (from_keys keys.now m n)) × (seconds.new ≡ second_partners (from_keys keys.now m n)) }
{
    pair_tracks(keys, firsts, seconds);
}
