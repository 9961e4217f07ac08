// The program of 01, part 8. It is run on a macro file of 32,768 bytes, lines at a bound and past it, byte 0, empty lines,
// a line of 10,000 passes and one of a pass more, withheld lines and control lines, a line that is refused after it moved a counter
// and one that shows the counter, more output than is held at once, and a last line that the input's end ends.
#![tactic(auto)]

use std::io::Write;

// The program, and what it leaves to be written.
fn main(rt: HostRuntime) {
    let mut input = rt.stdin();
    let mut output = rt.stdout();
    let mut table: [u8; 98304] = [0; 98304];
    let mut said = [0u8; 1100];
    let n = program::run(
        &rt,
        &mut input,
        &mut output,
        &mut table,
        &mut said,
        b"parts.m7",
    );
    let _ = output.write_all(&said[..n]);
}
