// The blocks of an input.
ghost use Rattle.std.specs.Prelude.{◌≡◌, ◌<◌, ◌≤◌, ◌↔◌, ℕ, List, [], length, take, IsTrue, MatchOption};
ghost use Rattle.std.specs.Io.KnownBytes.{Consumes};

use crate::records::Records;
use reading::read_full;
use std::io::Read;
use std::marker::Model;

// The most bytes of a block.
const MOST: usize = 65536;

// What is read of an input at once.
#[derive(Drop)]
pub struct Block {
    bytes: [u8; MOST],
    length: usize,
}

impl Model for Block {
    ghost Value = { List ℕ };

    ghost view = { λ b. take b.length b.bytes };

    ghost invariant = { λ b. b.length ≤ 65536 };
}

impl Block {
    // A block before it is filled.
    pub fn new() -> Block
        ensures { result ≡ [] }
    {
        Block {
            bytes: [0; MOST],
            length: 0,
        }
    }

    // Reads the next block in place of this one, and answers whether there is one: where the reader has ended or a read
    // fails, this one has no bytes. A program that reads many fills one again and again, since each that `Blocks` gives
    // is copied.
    pub fn fill<R: Read>(&mut self, reader: &mut R) -> bool
        ensures comes { IsTrue result ↔ 0 < length self.new }
        ensures bytes { Consumes (R.remaining reader.old) (R.remaining reader.new) self.new }
    {
        self.length = read_full(reader, &mut self.bytes);
        0 < self.length
    }

    // The bytes that were read.
    pub fn bytes(&self) -> &[u8]
        ensures { result.now ≡ self.now }
    {
        &self.bytes[..self.length]
    }

    // The records among them.
    pub fn records(&self) -> Records<'_>
        ensures { result.rest.now ≡ self.now }
    {
        Records { rest: self.bytes() }
    }
}

// The blocks that a reader gives, until it ends or a read fails. Nothing says that an input ends, and a proved loop has
// to: so a program says how many it takes at most.
#[derive(Drop)]
pub struct Blocks<R> {
    reader: R,
}

impl<R: Drop> Blocks<R> {
    // The blocks of what the reader gives from here on.
    pub fn of(reader: R) -> Blocks<R>
        ensures { result.reader ≡ reader }
    {
        Blocks { reader }
    }
}

impl<R: Read + Drop> Iterator for Blocks<R> {
    type Item = Block;

    ghost next_gives = { λ s r t. MatchOption r (Consumes (R.remaining s.reader) (R.remaining t.reader) [])
        (λ b. (0 < length b) × Consumes (R.remaining s.reader) (R.remaining t.reader) b) };

    fn next(&mut self) -> Option<Block> {
        let mut block = Block::new();
        if !block.fill(&mut self.reader) {
            return None;
        }
        Some(block)
    }
}
