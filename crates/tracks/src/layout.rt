// The layout of a list: a track's map, and the questions that reading and writing share.
ghost use Rattle.std.specs.Prelude.{◌≡◌, ◌+◌, ◌/◌, ◌<◌, ◌≤◌, length};
ghost use Rattle.tracks.specs.Layout.{map_bits, map_bytes, stands, finite_bits, spare, count_met, dimension_met};

use crate::inside;
use kernel::constants;
use kernel::question::Question;

// The bytes of the map of a track of dimension d, which has a bit for each field.
#[tactic(auto, unfolding(crate::specs::Layout::map_bits))]
pub(crate) fn map_bytes(d: usize) -> usize
    requires { d ≤ 9 }
    ensures { (result ≡ map_bytes (map_bits d)) × (result ≤ 7) }
{
    (inside::fields(d) + 7) / 8
}

// Question 10.
pub(crate) fn count_met(n: usize) -> bool
    ensures { result ≡ count_met n }
{
    n <= 32
}

// Question 11.
pub(crate) fn dimension_met(d: usize) -> bool
    ensures { result ≡ dimension_met d }
{
    1 <= d && d <= 9
}

// Bit k of the map at an offset.
#[tactic(auto, unfolding(crate::specs::Layout::stands))]
pub(crate) fn stands(list: &[u8], map: usize, k: usize) -> bool
    requires { map + k / 8 < length list.now }
    ensures { result ≡ stands list.now map k }
{
    (list[map + k / 8] >> (k % 8)) % 2 == 1
}

// Question 14, of 64 bits.
pub(crate) fn finite(bits: u64) -> bool
    ensures { result ≡ finite_bits bits }
{
    bits % constants::SIGN_BIT < constants::INFINITY_BITS
}

// Question 13: whether the spare bits of the map at an offset are 0. They are the high bits of its last byte.
#[tactic(auto, using(crate::proofs::Numbers::Spare::none_spare, crate::proofs::Numbers::Spare::spare_byte))]
pub(crate) fn spare_clear(list: &[u8], bits: usize, map: usize) -> bool
    requires { (bits ≤ 64) × (map + map_bytes bits ≤ length list.now) }
    ensures { result ≡ spare list.now bits map }
{
    if bits % 8 == 0 {
        return true;
    }
    list[map + bits / 8] >> (bits % 8) == 0
}
