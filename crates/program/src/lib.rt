// The program of 01, part 8: macros from a file, lines from standard input, lines that go out to standard output.
#![tactic(auto)]

mod parts;
mod said;

ghost use Rattle.std.specs.Prelude.{◌≡◌, ◌≤◌, length, take, replicate};
ghost use Rattle.line_feed.specs.Contract.{Lent};
ghost use Rattle.line_feed.specs.Taking.{SomeTable};
ghost use Rattle.m7.specs.Feeding.{Feeds};
ghost use Rattle.program.specs.Said.{Within};
ghost use Rattle.program.specs.Lines.{Put, Answered, LinesDone, FreshLines};
ghost use Rattle.program.specs.Held.{Sound};
ghost use Rattle.program.specs.Run.{Ran};

use line_answer::{Answer, answer_of};
use parts::read_parts;
use program_in::{next_line, start};
use program_out::put_text;
use said::{answer_said, refusal_said};
use std::io::{Read, Write};
use std::rt::Files;

// "Budget 10,000".
const BUDGET: u32 = 10000;

// The program, with the name of its macro file and a memory for the table: reads the file and answers the lines of `input` on `output`.
// "A refused file gives `! N 0` and nothing more": these first bytes of `said` are left for the caller to write.
pub fn run<F: Files, R: Read, W: Write>(
    files: &F,
    input: &mut R,
    output: &mut W,
    table: &mut [u8; 98304],
    said: &mut [u8; 1100],
    name: &[u8],
) -> usize
    requires { (table.old ≡ replicate 98304 0) × (1100 ≡ length said.old) }
    ensures { Within result said.new × Ran table.new (take result said.new) }
{
    match read_parts(files, table, name) {
        Ok(()) => {
            answer_lines(input, output, table);
            0
        }
        Err(error) => refusal_said(u32::from(error), 0, said),
    }
}

// "State fresh". The line's memory has one byte more than a line may have, so that a longer one shows.
fn answer_lines<R: Read, W: Write>(input: &mut R, output: &mut W, table: &mut [u8; 98304])
    requires { SomeTable table.old }
    ensures { FreshLines table.old table.new }
{
    let mut state: [u8; 52236] = [0; 52236];
    m7::fresh::m7_fresh(&mut state);
    let mut block: [u8; 65536] = [0; 65536];
    let mut line: [u8; 1055] = [0; 1055];
    let mut out: [u8; 65536] = [0; 65536];
    each_line(
        input, output, table, &mut state, &mut block, &mut line, &mut out,
    );
}

// The lines to the end of the input, numbered from 1. The trace's memory is lent to every line; nothing of it is said.
fn each_line<R: Read, W: Write>(
    input: &mut R,
    output: &mut W,
    table: &mut [u8; 98304],
    state: &mut [u8; 52236],
    block: &mut [u8; 65536],
    line: &mut [u8],
    out: &mut [u8; 65536],
)
    requires { Sound table.old state.old }
    ensures { LinesDone table.old state.old block.old line.old out.old table.new state.new block.new line.new out.new }
{
    let mut trace: [u8; 65536] = [0; 65536];
    let mut reading = next_line(input, block, line, start());
    let mut used = 0;
    for number in 1..u64::MAX {
        if !reading.begun {
            break;
        }
        used = answer_line(
            output,
            table,
            state,
            line,
            reading.held,
            number,
            out,
            used,
            &mut trace,
        );
        reading = next_line(input, block, line, reading);
    }
    write_held(output, out, used);
}

// Writes out what is held. A write that fails is passed over.
fn write_held<W: Write>(output: &mut W, out: &[u8], used: usize)
    requires { used ≤ length out.now }
{
    let _ = output.write_all(&out[..used]);
}

// Feeds the line that is held, and puts what there is to say.
fn answer_line<W: Write>(
    output: &mut W,
    table: &mut [u8; 98304],
    state: &mut [u8; 52236],
    line: &[u8],
    held: usize,
    number: u64,
    out: &mut [u8; 65536],
    used: usize,
    trace: &mut [u8],
) -> usize
    requires { Sound table.old state.old × (held ≤ length line.now) × (used ≤ 65536) × (length trace.old ≡ 65536) }
    ensures answered { Answered (take held line.now) number table.old state.old out.old used table.new state.new out.new result }
    ensures upper_bound { result ≤ 65536 }
    ensures sound { Sound table.new state.new }
{
    let mut text: [u8; 1054] = [0; 1054];
    let answer = feed_line(table, state, &line[..held], &mut text, trace);
    put_said(output, answer, &text, number, out, used)
}

// Feeds a line with what is known to be a table and a state: what m7_feed answers, without its checks.
fn feed_line(
    table: &mut [u8],
    state: &mut [u8],
    line: &[u8],
    output: &mut [u8],
    trace: &mut [u8],
) -> Answer
    requires { Lent (record { table = table.now; state = state.old; output = output.old; trace = trace.old }) }
    ensures { Feeds (record { feeding = record { sent = record { line = line.entry.now; budget = 10000 }; lent = record { table = table.entry.now; state = state.old; output = output.old; trace = trace.old }; left = record { table = table.exit.now; state = state.new; output = output.new; trace = trace.new } }; answer = result }) }
{
    let fed = line_feed::feed(table, state, line, BUDGET, output, trace);
    answer_of(fed)
}

// Puts what there is to say to an answer.
fn put_said<W: Write>(
    output: &mut W,
    answer: Answer,
    text: &[u8],
    number: u64,
    out: &mut [u8; 65536],
    used: usize,
) -> usize
    requires { (length text.now ≡ 1054) × (used ≤ 65536) }
    ensures put { Put answer text.now number out.old used out.new result }
    ensures upper_bound { result ≤ 65536 }
{
    let mut said = [0u8; 1100];
    let n = answer_said(answer, text, number, &mut said);
    put_text(output, out, used, &said[..n])
}
