// The words of a command.
ghost use Rattle.std.specs.Prelude.{◌≤◌, length, IfSome};

// What a line asks for.
#[derive(Clone, Copy, Debug, PartialEq, Eq)]
pub(crate) enum Command {
    Read,
    Feed(u32),
    Fresh,
    Write,
    Lends,
}

// The bytes of a command's word.
const WORD_BYTES: usize = 5;

// A command and the place of the bytes behind its words, if it is one.
pub(crate) fn command_of(text: &[u8]) -> Option<(Command, usize)>
    ensures { IfSome result (λ found. found.1 ≤ length text.now) }
{
    if text.len() < WORD_BYTES {
        return None;
    }
    match &text[..WORD_BYTES] {
        b"read " => Some((Command::Read, WORD_BYTES)),
        b"feed " => Some(feed_of(text)),
        b"fresh" => Some((Command::Fresh, WORD_BYTES)),
        b"write" => Some((Command::Write, WORD_BYTES)),
        b"lends" => Some((Command::Lends, WORD_BYTES)),
        _ => None,
    }
}

// Behind `feed` stands the budget, and a space behind it.
fn feed_of(text: &[u8]) -> (Command, usize)
    requires { 5 ≤ length text.now }
    ensures { result.1 ≤ length text.now }
{
    let mut budget = 0;
    let mut at = WORD_BYTES;
    for b in &text[WORD_BYTES..] {
        at += 1;
        if *b == b' ' {
            break;
        }
        budget = with_digit(budget, *b);
    }
    (Command::Feed(budget), at)
}

// One digit more. Numbers above 999,999,999 are taken as that, which is above every bound; a byte that is no digit is passed over.
fn with_digit(value: u32, b: u8) -> u32 {
    match b {
        b'0'..=b'9' if value < 100_000_000 => value * 10 + u32::from(b - b'0'),
        b'0'..=b'9' => 999_999_999,
        _ => value,
    }
}
