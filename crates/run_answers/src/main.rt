// Every stored case of reference/answers, asked of the exported functions: the commands of the line protocol (reference/README.md)
// from standard input, and an answer to each, which must be the Rust version's. `lends` asks for the refusals of the host, which that has not.
#![tactic(auto)]

mod command_words;
mod hex;
mod lends;
mod reply;
mod serve;

use program_in::{next_line, start};
use serve::obey;
use std::io::{Read, Write};

// At the start the table is empty and the state fresh.
fn main(rt: HostRuntime) {
    let mut input = rt.stdin();
    let mut output = rt.stdout();
    let mut table: [u8; 98304] = [0; 98304];
    let mut state: [u8; 52236] = [0; 52236];
    m7::fresh::m7_fresh(&mut state);
    let mut block: [u8; 65536] = [0; 65536];
    let mut command: [u8; 131072] = [0; 131072];
    each_command(
        &mut input,
        &mut output,
        &mut table,
        &mut state,
        &mut block,
        &mut command,
    );
}

// The commands to the end of the input. Nothing says that an input ends, so the turns are counted.
fn each_command<R: Read, W: Write>(
    input: &mut R,
    output: &mut W,
    table: &mut [u8; 98304],
    state: &mut [u8; 52236],
    block: &mut [u8; 65536],
    command: &mut [u8],
) {
    let mut reading = next_line(input, block, command, start());
    for _ in 0..u64::MAX {
        if !reading.begun {
            break;
        }
        obey(output, table, state, command, reading.held);
        reading = next_line(input, block, command, reading);
    }
}
