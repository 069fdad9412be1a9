// trackdump FILE [triangle]: shows a track list as text. The first line has the count and the dimension; then there is
// a line for each track, with its index, its state and its variances, or with the word `triangle` the lower triangle of
// its covariance, row by row. A list that is refused is shown as `no`, the question's number and the question.
#![tactic(auto)]

mod question;

ghost use Rattle.std.specs.Prelude.{◌<◌, ◌≤◌};

use crate::question::InWords;
use std::fs::File;
use std::io::Read;
use std::rt::Files;
use std::{env, io};
use tracks::read::ListSize;
use tracks::{inside, read};

// The most bytes of a path.
const LONGEST_PATH: usize = 4096;
// The values of the largest list: 32 tracks of 54 fields.
const VALUES: usize = 1728;

// What is shown of a track's covariance.
#[derive(Clone, Copy, Debug, PartialEq, Eq)]
enum Shown {
    Variances,
    Triangle,
}

fn print_values(rt: &impl Print, values: &[f64]) -> io::Result<()> {
    for x in values {
        print!(rt; " {x:?}")?;
    }
    Ok(())
}

// The last value of each row of a triangle, which has at most nine.
fn print_variances(rt: &impl Print, triangle: &[f64]) -> io::Result<()> {
    for x in (0..9).filter_map(|i| triangle.get(i * (i + 3) / 2)) {
        print!(rt; " {x:?}")?;
    }
    Ok(())
}

// A track's fields: d values of the state, then the triangle.
fn print_track(rt: &impl Print, fields: &[f64], d: usize, shown: Shown) -> io::Result<()> {
    let Some((state, triangle)) = fields.split_at_checked(d) else {
        return Ok(());
    };
    print!(rt; " state")?;
    print_values(rt, state)?;
    match shown {
        Shown::Triangle => {
            print!(rt; " triangle")?;
            print_values(rt, triangle)?;
        }
        Shown::Variances => {
            print!(rt; " variances")?;
            print_variances(rt, triangle)?;
        }
    }
    println!(rt)
}

// The tracks whose fields are the values, in their order.
#[tactic(auto, unfolding(tracks::specs::Layout::fields))]
fn print_list(rt: &impl Print, values: &[f64], size: ListSize, shown: Shown) -> io::Result<()>
    requires { (0 < size.dimension) × (size.dimension ≤ 9) }
{
    println!(rt; "count {} dimension {}", size.count, size.dimension)?;
    let tracks = values.chunks_exact(inside::fields(size.dimension));
    for (j, fields) in tracks.take(size.count).enumerate() {
        print!(rt; "{j}")?;
        print_track(rt, fields, size.dimension, shown)?;
    }
    Ok(())
}

#[tactic(auto, using(crate::proofs::Dimension::read_sized))]
fn show(rt: &impl Print, list: &[u8], shown: Shown) -> io::Result<()> {
    let mut values = [0.0; VALUES];
    match read::read_list(list, &mut values) {
        Ok(size) => print_list(rt, &values, size, shown),
        Err(question) => println!(rt; "no {}: {}", u8::from(question), InWords(question)),
    }
}

// The system's text of an error, without the number that std puts after it.
fn words_of(text: &str) -> &str {
    match text.split_once(" (os error ") {
        Some((words, _)) => words,
        None => text,
    }
}

// Writes a line to standard error: what failed, a colon and the system's text.
fn fail(rt: &(impl Eprint + AllocGlobal), path: &str, error: io::Error) -> io::Result<()> {
    let text = format!(in rt.alloc(); "{error}")?;
    let words = words_of(text.as_str());
    eprintln!(rt; "{path}: {words}")
}

// A list has at most 14,050 bytes, so what the buffer does not hold of a longer file changes no answer.
fn show_open<F: Read>(
    rt: &(impl Print + Eprint + AllocGlobal),
    file: &mut F,
    path: &str,
    shown: Shown,
) -> io::Result<()> {
    let mut list = [0u8; 65536];
    match file.read(&mut list) {
        Ok(n) => {
            let more = reading::read_full(file, &mut list[n..]);
            show(rt, &list[..n + more], shown)
        }
        Err(error) => fail(rt, path, error),
    }
}

fn show_file(
    rt: &(impl Files + Print + Eprint + AllocGlobal),
    path: &str,
    shown: Shown,
) -> io::Result<()> {
    match File::open(rt, path) {
        Ok(mut file) => show_open(rt, &mut file, path, shown),
        Err(error) => fail(rt, path, error),
    }
}

fn fail_usage(rt: &impl Eprint) -> io::Result<()> {
    eprintln!(rt; "usage: trackdump FILE [triangle]")
}

fn main(rt: HostRuntime) -> io::Result<()> {
    let Ok(all) = env::args(&rt) else {
        return fail_usage(&rt);
    };
    let mut args = all.skip(1);
    let Some(path) = args.next() else {
        return fail_usage(&rt);
    };
    if LONGEST_PATH < path.len() {
        return fail_usage(&rt);
    }
    let shown = match args.next() {
        None => Shown::Variances,
        Some(word) => {
            if word.as_str() != "triangle" || args.next().is_some() {
                return fail_usage(&rt);
            }
            Shown::Triangle
        }
    };
    show_file(&rt, &path, shown)
}
