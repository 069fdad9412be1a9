// Replays frozen answers of the matrix calls. The input is blocks of 65,536 bytes, each some records and then zeros;
// all numbers have eight bytes, low byte first, and doubles stand by their bit patterns. A record has its length in
// numbers, the call, three sides, a double, the lengths of the three slices that are read and of the one that is
// written, and the answer's number; then the entries of the slices that are read, and those of the one that is written
// after the call.
#![tactic(auto)]

mod answer;
mod call;

use crate::answer::Arguments;
use crate::call::Call;
use replay::{Block, Tally, after, first_doubles, number, up_to};
use std::io;

// The bytes of a record before its data.
const HEAD: u64 = 88;
// The most entries of a slice, one of a wrong length included.
const MOST: u16 = 272;

const ENTRIES: usize = MOST as usize;

// The answer's number of a record that lacks what its call takes: no question has it.
const NO_RECORD: u64 = 99;

// What stands in a slice before it is written.
const BEFORE: f64 = 7.0;

// Whether the record at the start of s is answered as it says.
fn is_met(s: &[u8], call: Call) -> bool {
    let la = up_to(MOST, number(s, 6));
    let lb = up_to(MOST, number(s, 7));
    let lc = up_to(MOST, number(s, 8));
    let lo = up_to(MOST, number(s, 9));
    let at_a = after(s, HEAD);
    let at_b = after(at_a, 8 * la as u64);
    let at_c = after(at_b, 8 * lb as u64);
    let at_out = after(at_c, 8 * lc as u64);
    let a = first_doubles::<ENTRIES>(at_a);
    let b = first_doubles::<ENTRIES>(at_b);
    let c = first_doubles::<ENTRIES>(at_c);
    let arguments = Arguments {
        m: number(s, 2) as usize,
        k: number(s, 3) as usize,
        n: number(s, 4) as usize,
        x: replay::double(number(s, 5)),
        a: &a[..la],
        b: &b[..lb],
        c: &c[..lc],
    };
    let mut out = [BEFORE; ENTRIES];
    let is_told = match answer::answer(call, arguments, &mut out[..lo]) {
        Some(Ok(())) => number(s, 10) == 0,
        Some(Err(question)) => number(s, 10) == u64::from(u8::from(question)),
        None => number(s, 10) == NO_RECORD,
    };
    is_told && replay::are_same(&out[..lo], at_out)
}

// As in the other programs: a function over the calls and their checks would need a trait as long as this.
fn main(rt: HostRuntime) -> io::Result<()> {
    let mut tallies = [Tally::default(); 30];
    let mut reader = rt.reader();
    let mut block = Block::new();
    // Nothing says that the input ends, and a proved loop has to: so the turns are counted, up to a number that no run
    // uses up.
    for _ in 0..u64::MAX {
        if !block.fill(&mut reader) {
            break;
        }
        for s in block.records() {
            let call = Call::of(number(s, 1));
            tallies[call as usize].count(is_met(s, call));
        }
    }
    for (call, tally) in Call::ALL.iter().zip(&tallies) {
        println!(rt; "{call} {tally}")?;
    }
    Ok(())
}
