// What the programs share that read files or their input.
#![tactic(auto)]

ghost use Rattle.std.specs.Prelude.{◌≡◌, ◌≤◌, length, take};
ghost use Rattle.std.specs.Io.KnownBytes.{Consumes};

use std::io::Read;

// Reads until the buffer is full, the reader ends or a read fails, and gives how many bytes were read.
pub fn read_full<R: Read>(reader: &mut R, buffer: &mut [u8]) -> usize
    ensures prefix { (result ≤ length buffer.new) × (result ≡ length (take result buffer.new)) }
    ensures bytes { Consumes (R.remaining reader.old) (R.remaining reader.new) (take result buffer.new) }
{
    let mut done = 0;
    // Each read goes after the one before.
    while let Ok(n @ 1..) = reader.read(&mut buffer[done..]) {
        done += n;
    }
    done
}
