// The commands: each is taken apart, the engine called, and the answer put.
ghost use Rattle.std.specs.Prelude.{◌≤◌, length, IfSome};

use crate::command_words::{Command, command_of};
use crate::hex::decode;
use crate::reply::{write_error, write_reply};
use line_answer::Answer;
use std::io::Write;

// Obeys a command, of which so many bytes are held, and writes its answer.
pub(crate) fn obey<W: Write>(
    output: &mut W,
    table: &mut [u8; 98304],
    state: &mut [u8; 52236],
    command: &mut [u8],
    held: usize,
)
    requires { held ≤ length command.old }
{
    let mut text: [u8; 32768] = [0; 32768];
    let mut trace: [u8; 65536] = [0; 65536];
    let mut out: [u8; 4096] = [0; 4096];
    let Some((asked, size)) = asked_of(command, held) else {
        write_error(output);
        return;
    };
    let answer = call(table, state, &command[..size], &mut text, &mut trace, asked);
    write_reply(output, &mut out, &text, asked, answer);
}

// Takes a command apart; its hex is decoded in place, to the front. One that fills the memory may be longer, and is not obeyed.
fn asked_of(command: &mut [u8], held: usize) -> Option<(Command, usize)>
    requires { held ≤ length command.old }
    ensures { IfSome result (λ asked. asked.1 ≤ length command.old) }
{
    if command.len() <= held {
        return None;
    }
    let (asked, behind) = command_of(&command[..held])?;
    match asked {
        Command::Read | Command::Feed(_) => {
            let size = decode(&mut command[..held], behind)?;
            Some((asked, size))
        }
        _ => Some((asked, 0)),
    }
}

// The engine's answer.
fn call(
    table: &mut [u8],
    state: &mut [u8],
    bytes: &[u8],
    text: &mut [u8],
    trace: &mut [u8],
    asked: Command,
) -> Answer
    requires { 1054 ≤ length text.old }
{
    match asked {
        Command::Read => m7::read::m7_read(bytes, table),
        Command::Feed(budget) => {
            m7::feed::m7_feed(table, state, bytes, budget, &mut text[..1054], trace)
        }
        Command::Fresh => m7::fresh::m7_fresh(state),
        Command::Write => m7::write::m7_write(table, text),
        Command::Lends => nothing(),
    }
}

// The answer where nothing is called.
fn nothing() -> Answer {
    Answer {
        number: 0,
        place: 0,
        passes: 0,
        kind: 0,
        length: 0,
    }
}
