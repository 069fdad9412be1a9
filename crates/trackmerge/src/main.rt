// Merges the lists of the files base.trk, ours.trk and theirs.trk with floor 1 and gate 16, and prints a line for each
// row (base, ours, theirs, verdict; `-` for no track), then how many rows have three, two and one track. Where the
// merge is refused, it prints `no` and the question's number.
#![tactic(auto)]

use merge::{NO_TRACK, merge};
use std::fmt::{Display, Formatter};
use std::fs::File;
use std::rt::Files;
use std::{fmt, io};

// A track by its index in its list, or `-` for no track.
#[derive(Clone, Copy, Debug, PartialEq, Eq)]
struct Track(u8);

impl Display for Track {
    fn fmt<W: fmt::Write>(&self, f: &mut Formatter<W>) -> fmt::Result {
        if self.0 == NO_TRACK {
            return f.write_str("-");
        }
        write!(f, "{}", self.0)
    }
}

// Reads a file from its start into the buffer, and gives what was read. A file that can't be opened counts as empty. A
// list has at most 14,050 bytes, so what a buffer of 65,536 does not hold of a longer file changes no answer.
fn read_file<'a>(rt: &impl Files, path: &str, buffer: &'a mut [u8]) -> &'a [u8] {
    let Ok(mut file) = File::open(rt, path) else {
        return &buffer[..0];
    };
    let n = reading::read_full(&mut file, buffer);
    &buffer[..n]
}

// Prints the first n rows, four bytes to each.
fn print_rows(rt: &impl Print, rows: &[u8], n: usize) -> io::Result<()> {
    for row in rows.chunks_exact(4).take(n) {
        println!(rt;
            "{} {} {} {}",
            Track(row[0]),
            Track(row[1]),
            Track(row[2]),
            row[3]
        )?;
    }
    Ok(())
}

fn main(rt: HostRuntime) -> io::Result<()> {
    let mut base = [0u8; 65536];
    let mut ours = [0u8; 65536];
    let mut theirs = [0u8; 65536];
    let base = read_file(&rt, "base.trk", &mut base);
    let ours = read_file(&rt, "ours.trk", &mut ours);
    let theirs = read_file(&rt, "theirs.trk", &mut theirs);
    let mut rows = [0u8; 384];
    match merge(base, ours, theirs, 1.0, 16.0, &mut rows) {
        Ok(counts) => {
            print_rows(&rt, &rows, counts.full + counts.half + counts.single)?;
            println!(rt; "{} {} {}", counts.full, counts.half, counts.single)
        }
        Err(question) => println!(rt; "no {}", u8::from(question)),
    }
}
