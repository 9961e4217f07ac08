// Files that are refused: one by its 32,769th byte, one that is not there, and a folder, which opens and cannot be read.
// Of each its number, and nothing more: no line is read. Then the program's song of 01.
#![tactic(auto)]

use std::io::{Read, Write};
use std::rt::Files;

// The program on a file, and what it leaves to be written.
fn run<F: Files, R: Read, W: Write>(files: &F, input: &mut R, output: &mut W, name: &[u8]) {
    let mut table: [u8; 98304] = [0; 98304];
    let mut said = [0u8; 1100];
    let n = program::run(files, input, output, &mut table, &mut said, name);
    let _ = output.write_all(&said[..n]);
}

// The refused files, and then the song.
fn main(rt: HostRuntime) {
    let mut input = rt.stdin();
    let mut output = rt.stdout();
    run(&rt, &mut input, &mut output, b"long.m7");
    run(&rt, &mut input, &mut output, b"missing.m7");
    run(&rt, &mut input, &mut output, b"folder.m7");
    run(&rt, &mut input, &mut output, b"song.m7");
}
