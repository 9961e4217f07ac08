// The lines of standard input, or of another reader, by way of a block that the caller lends.
#![tactic(auto)]

ghost use Rattle.std.specs.Prelude.{◌≡◌, ◌≤◌, ◌<◌, true, false, eqb, length, position};
ghost use Rattle.program_in.specs.Reading.{LineRead};
ghost use Rattle.program_in.specs.Turns.{Keeps, Part, Filled};

use std::io::Read;

// Where the reading stands. Of the block the bytes from `at` to `size` are still to come; of the line `held` bytes are held.
// The line has begun with its first byte or line feed.
#[derive(Clone, Copy, Debug, PartialEq, Eq)]
pub struct Reading {
    pub at: usize,
    pub size: usize,
    pub held: usize,
    pub begun: bool,
}

// A reading, and whether its line has ended: with its line feed, or with the input.
#[derive(Clone, Copy, Debug, PartialEq, Eq)]
struct Turn {
    reading: Reading,
    ended: bool,
}

// Before the first line.
pub fn start() -> Reading
    ensures { result ≡ record { at = 0; size = 0; held = 0; begun = false } }
{
    Reading {
        at: 0,
        size: 0,
        held: 0,
        begun: false,
    }
}

// Reads the next line. Of a longer one as many bytes are held as the memory has; none has begun where the input ends.
// Nothing says that an input ends, so the turns are counted.
pub fn next_line<R: Read>(
    input: &mut R,
    block: &mut [u8],
    line: &mut [u8],
    from: Reading,
) -> Reading
    requires { from.size ≤ length block.old }
    ensures { LineRead from block.old line.old result block.new line.new }
{
    let mut reading = between(from);
    for _ in 0..u64::MAX {
        let turn = one_turn(input, block, line, reading);
        reading = turn.reading;
        if turn.ended {
            break;
        }
    }
    reading
}

// The next line has not begun.
fn between(from: Reading) -> Reading
    ensures { result ≡ record { at = from.at; size = from.size; held = 0; begun = false } }
{
    Reading {
        held: 0,
        begun: false,
        ..from
    }
}

// Takes what the block has of the line, which is read anew where nothing is to come. Where that gives nothing the input has ended.
fn one_turn<R: Read>(input: &mut R, block: &mut [u8], line: &mut [u8], from: Reading) -> Turn
    requires { (from.size ≤ length block.old) × (from.held ≤ length line.old) }
    ensures { Part from block.old line.old result block.new line.new }
{
    let reading = fill(input, block, from);
    if reading.at < reading.size {
        return take_bytes(block, line, reading);
    }
    Turn {
        reading,
        ended: true,
    }
}

// Reads the next block where nothing is to come.
fn fill<R: Read>(input: &mut R, block: &mut [u8], from: Reading) -> Reading
    requires { from.size ≤ length block.old }
    ensures { Filled from block.old result block.new }
{
    if from.at < from.size {
        return from;
    }
    next_block(input, block, from)
}

// Reads once. A read that fails counts as the end.
fn next_block<R: Read>(input: &mut R, block: &mut [u8], from: Reading) -> Reading
    requires { from.size ≤ from.at }
    ensures { Filled from block.old result block.new }
{
    let at = 0;
    let size = read_once(input, block);
    Reading { at, size, ..from }
}

// How many bytes one read gives, from the block's front: none where it fails.
fn read_once<R: Read>(input: &mut R, block: &mut [u8]) -> usize
    ensures { result ≤ length block.old }
{
    input.read(block).unwrap_or(0)
}

// The place of the first line feed.
fn line_feed(bytes: &[u8]) -> Option<usize>
    ensures { result ≡ position (λ b. eqb b 10) bytes.now }
{
    bytes.iter().position(|b| *b == b'\n')
}

// Takes bytes up to the line feed or the block's end.
fn take_bytes(block: &[u8], line: &mut [u8], from: Reading) -> Turn
    requires { (from.size ≤ length block.now) × (from.at < from.size) × (from.held ≤ length line.old) }
    ensures { Part from block.now line.old result block.now line.new }
{
    let at = from.at;
    let size = from.size;
    let coming = &block[at..size];
    match line_feed(coming) {
        Some(n) => within(at + n + 1, size, keep(line, from.held, &coming[..n]), true),
        None => within(size, size, keep(line, from.held, coming), false),
    }
}

// A line that has begun.
fn within(at: usize, size: usize, held: usize, ended: bool) -> Turn
    ensures { result ≡ record { reading = record { at = at; size = size; held = held; begun = true }; ended = ended } }
{
    let reading = Reading {
        at,
        size,
        held,
        begun: true,
    };
    Turn { reading, ended }
}

// Holds as many bytes more of the line as there is room for.
fn keep(line: &mut [u8], held: usize, bytes: &[u8]) -> usize
    requires { held ≤ length line.old }
    ensures { Keeps line.old held bytes.now line.new result }
{
    let end = line.len().min(held + bytes.len());
    line[held..end].copy_from_slice(&bytes[..end - held]);
    end
}
