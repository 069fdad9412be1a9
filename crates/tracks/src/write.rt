// Writing a list. Every question is put before anything is written.
ghost use Rattle.std.specs.Prelude.{◌≡◌, ◌+◌, ◌*◌, ◌/◌, ◌<◌, ◌≤◌, length, get_or};
ghost use Rattle.std.specs.Float.{binary64};
ghost use Rattle.std.specs.Float.Ieee.{to_bits};
ghost use Rattle.kernel.specs.Bytes.{bytes};
ghost use Rattle.kernel.specs.Lists.{over};
ghost use Rattle.tracks.specs.Layout.{fields, map_bits, map_bytes};
ghost use Rattle.tracks.specs.Write.{all_finite, nonzero, map_byte, map_of, field_bytes, stored_bytes, record_of, records_of, tracks_of, written};
ghost use Rattle.tracks.specs.Calls.{patterns, write_answer, write_bytes};
ghost use Rattle.tracks.specs.Private.{track_of_doubles, Writes, TracksWritten};

use crate::{inside, layout};
use kernel::question::Question;

// The 64 bits of a value. No NaN has bits of its own here; those of `to_bits` are not finite either.
#[tactic(auto, using(crate::proofs::Numbers::Values::nan_bits, kernel::proofs::Doubles::Patterns::equals_itself))]
fn bits_of(x: f64) -> u64
    ensures { result ≡ to_bits binary64 x }
{
    if x != x {
        return 0x7FF8_0000_0000_0000;
    }
    f64::to_bits(x)
}

// Question 14, of values.
#[tactic(auto, using(crate::proofs::Numbers::Values::finite_told))]
fn all_finite(v: &[f64]) -> bool
    ensures { result ≡ all_finite (patterns v.now) }
{
    v.iter().all(|x| layout::finite(bits_of(*x)))
}

// How many bytes a field takes.
#[tactic(auto, using(crate::proofs::Records::Bytes::field_takes_none, crate::proofs::Records::Bytes::field_takes_eight))]
fn field_length(x: u64) -> usize
    ensures { (result ≡ length (field_bytes x)) × (result ≤ 8) }
{
    if x == 0 { 0 } else { 8 }
}

// How many bytes the stored fields of values take.
#[tactic(auto, using(crate::proofs::Records::Bytes::stored_next, crate::proofs::Numbers::Values::all_patterns), unfolding(crate::specs::Write::stored_bytes))]
fn stored_length(v: &[f64]) -> usize
    requires { length v.now ≤ 2048 }
    ensures { (result ≡ length (stored_bytes (patterns v.now))) × (result ≤ 8 * length v.now) }
{
    let mut n = 0;
    for x in v {
        n += field_length(bits_of(*x));
    }
    n
}

// Whether field k of a track stands.
fn is_stored(v: &[f64], k: usize) -> bool
    ensures { result ≡ nonzero (get_or (patterns v.now) k 0) }
{
    k < v.len() && bits_of(v[k]) != 0
}

// Byte b of a track's map.
fn map_byte(v: &[f64], b: usize) -> u8
    requires { b < 64 }
    ensures { result ≡ map_byte (track_of_doubles v.now) b }
{
    (0..8).fold(
        0,
        |byte, i| byte + if is_stored(v, 8 * b + i) { 1 << i } else { 0 },
    )
}

// Writes the map of a track of dimension d.
fn write_map(v: &[f64], d: usize, out: &mut [u8], at: usize) -> usize
    requires { (d ≤ 9) × (at + map_bytes (map_bits d) ≤ length out.old) }
    ensures { Writes (map_of d (track_of_doubles v.now)) out.old at result out.new }
{
    let n = layout::map_bytes(d);
    for (b, x) in out[at..at + n].iter_mut().enumerate() {
        *x = map_byte(v, b);
    }
    at + n
}

// Writes 64 bits, low byte first.
#[tactic(auto, using(crate::proofs::Slices::Lists::word_copied))]
fn write_word(out: &mut [u8], at: usize, x: u64)
    requires { at + 8 ≤ length out.old }
    ensures { out.new ≡ over out.old at (bytes 8 x) }
{
    out[at..at + 8].copy_from_slice(&x.to_le_bytes());
}

// Writes a field, unless it is +0.0.
#[tactic(auto, using(crate::proofs::Records::Bytes::field_bytes_laws))]
fn write_field(x: u64, out: &mut [u8], at: usize) -> usize
    requires { at + length (field_bytes x) ≤ length out.old }
    ensures { Writes (field_bytes x) out.old at result out.new }
{
    if x == 0 {
        return at;
    }
    write_word(out, at, x);
    at + 8
}

// Writes the fields of a track whose bits stand.
fn write_fields(v: &[f64], out: &mut [u8], start: usize) -> usize
    requires { start + length (stored_bytes (patterns v.now)) ≤ length out.old }
    ensures { Writes (stored_bytes (patterns v.now)) out.old start result out.new }
{
    let mut at = start;
    for x in v {
        at = write_field(bits_of(*x), out, at);
    }
    at
}

// Writes the own bytes of a track of dimension d.
#[tactic(auto, using(crate::proofs::Records::Bytes::record_length, crate::proofs::Records::Bytes::map_length, crate::proofs::Records::Bytes::record_over))]
pub(crate) fn write_record(v: &[f64], d: usize, out: &mut [u8], at: usize) -> usize
    requires { (d ≤ 9) × (at + length (record_of d (track_of_doubles v.now)) ≤ length out.old) }
    ensures { Writes (record_of d (track_of_doubles v.now)) out.old at result out.new }
{
    let next = write_map(v, d, out, at);
    write_fields(v, out, next)
}

// Writes the tracks of dimension d whose fields are the values, after the two bytes of count and dimension.
fn write_tracks(v: &[f64], d: usize, out: &mut [u8]) -> usize
    requires { TracksWritten v.now d (length v.now / fields d) out.old }
    ensures { Writes (records_of d (tracks_of (length v.now / fields d) (fields d) (patterns v.now))) out.old 2 result out.new }
{
    let f = inside::fields(d);
    let mut at = 2;
    // Each record goes after the one before.
    for values in v.chunks_exact(f) {
        at = write_record(values, d, out, at);
    }
    at
}

// The length of a list that is to be written into a buffer of some length, and its questions.
#[tactic(auto, using(crate::proofs::Records::Bytes::question_laws))]
fn check_write(n: usize, d: usize, v: &[f64], room: usize) -> Result<usize, Question>
    ensures { result ≡ write_answer (written n d (patterns v.now) room) }
{
    if !layout::count_met(n) {
        return Err(Question::Count);
    }
    if !layout::dimension_met(d) {
        return Err(Question::Dimension);
    }
    if v.len() != n * inside::fields(d) {
        return Err(Question::Length);
    }
    if !all_finite(v) {
        return Err(Question::FiniteField);
    }
    let length = 2 + n * layout::map_bytes(d) + stored_length(v);
    if room < length {
        return Err(Question::ListBuffer);
    }
    Ok(length)
}

// Writes the list of n tracks of dimension d whose fields are the values, in their order, and gives its length.
#[tactic(auto, using(crate::proofs::Records::Bytes::list_laws))]
pub fn write_list(n: usize, d: usize, values: &[f64], out: &mut [u8]) -> Result<usize, Question>
    ensures value { result ≡ write_answer (written n d (patterns values.now) (length out.old)) }
    ensures out_after { out.new ≡ write_bytes (written n d (patterns values.now) (length out.old)) out.old }
{
    let length = check_write(n, d, values, out.len())?;
    out[0] = n as u8;
    out[1] = d as u8;
    write_tracks(values, d, out);
    Ok(length)
}
