// Bytes of a macro file that is written out: put into it up to its end, or counted.
// A number of bytes past the file's end says that they do not all fit: it is handed on, and no more is put.
#![tactic(auto)]

ghost use Rattle.std.specs.Prelude.{◌≡◌, ℕ, List, [], ◌∷◌, ◌++◌, ◌+◌, ◌≤◌, ◌<◌, length, take};
ghost use Rattle.macros.specs.Write.{byte, digits};
ghost use Rattle.write_put.specs.Puts.{short_text, Ends, Puts, Counts};
ghost use Rattle.write_put.specs.Sinks.{SinkLaws, room_fits, puts_into, file_laws, can_count, counts_from, counter_laws};

// Up to four bytes.
#[derive(Clone, Copy, Debug, PartialEq, Eq)]
pub enum Short {
    Nothing,
    One(u8),
    Two(u8, u8),
    Three(u8, u8, u8),
    Four(u8, u8, u8, u8),
}

// The number of its bytes.
fn size_of(s: Short) -> usize
    ensures { result ≡ length (short_text s) }
{
    match s {
        Short::Nothing => 0,
        Short::One(_) => 1,
        Short::Two(_, _) => 2,
        Short::Three(_, _, _) => 3,
        Short::Four(_, _, _, _) => 4,
    }
}

// The bytes, and zeros.
fn bytes_of(s: Short) -> [u8; 4]
    ensures { take (length (short_text s)) result ≡ short_text s }
{
    match s {
        Short::Nothing => [0, 0, 0, 0],
        Short::One(a) => [a, 0, 0, 0],
        Short::Two(a, b) => [a, b, 0, 0],
        Short::Three(a, b, c) => [a, b, c, 0],
        Short::Four(a, b, c, d) => [a, b, c, d],
    }
}

// The number of bytes when some are put behind the first n, past the end of the room if n is.
pub fn end_of(room: usize, n: usize, size: usize) -> usize
    requires { (room ≤ 32768) × (size ≤ 8) }
    ensures { Ends room n size result }
{
    if room < n {
        return n;
    }
    n + size
}

// Puts bytes behind the first n of the file.
pub fn put(file: &mut [u8], n: usize, s: Short) -> usize
    requires { length file.old ≤ 32768 }
    ensures { Puts n (short_text s) file.old file.new result }
{
    let end = end_of(file.len(), n, size_of(s));
    if file.len() < end {
        return end;
    }
    let bytes = bytes_of(s);
    file[n..end].copy_from_slice(&bytes[..end - n]);
    end
}

// A byte, with a `\` if it is one of the marks.
pub fn marked(mark: bool, b: u8) -> Short
    ensures { short_text result ≡ byte mark b }
{
    if !mark {
        return Short::One(b);
    }
    match b {
        b'\n' => Short::Two(b'\\', b'n'),
        b'\t' => Short::Two(b'\\', b't'),
        _ => Short::Two(b'\\', b),
    }
}

// A byte's number without leading zeros, and a byte behind it.
pub fn decimal(v: u8, close: u8) -> Short
    ensures { short_text result ≡ digits v ++ (close ∷ []) }
{
    if v < 10 {
        return Short::Two(48 + v, close);
    }
    let tens = v / 10;
    if tens < 10 {
        return Short::Three(48 + tens, 48 + v % 10, close);
    }
    Short::Four(48 + tens / 10, 48 + tens % 10, 48 + v % 10, close)
}

fn figure(v: u32) -> u8
    requires { v < 10 }
    ensures { result ≡ 48 + v }
{
    b'0' + v as u8
}

// Where the bytes of a macro go: into the file, or only into their count.
pub trait Sink {
    // That bytes can be added.
    ghost fits: { Self → Type 0 };

    // The bytes are added behind the first n, and end at the last number.
    ghost adds: { ℕ → List ℕ → Self → Self → ℕ → Type 0 };

    fn add(&mut self, n: usize, s: Short) -> usize
        requires { fits self.old }
        ensures { adds n (short_text s) self.old self.new result };

    ghost laws: { SinkLaws fits adds };
}

// The file that the bytes are put into, of at most 32,768 bytes.
#[derive(Drop)]
pub struct InFile<'a> {
    pub file: &'a mut [u8],
}

impl Sink for InFile<'_> {
    ghost fits = { room_fits };

    ghost adds = { puts_into };

    ghost laws = { file_laws };

    fn add(&mut self, n: usize, s: Short) -> usize {
        put(self.file, n, s)
    }
}

// No file: more bytes than a macro may have are handed on as a number past 512.
#[derive(Clone, Copy, Debug, PartialEq, Eq)]
pub struct Counter;

impl Sink for Counter {
    ghost fits = { can_count };

    ghost adds = { counts_from };

    ghost laws = { counter_laws };

    fn add(&mut self, n: usize, s: Short) -> usize {
        count(n, s)
    }
}

// Adds a number without leading zeros: the digits before the last first, a call for each.
pub fn add_number<S: Sink>(sink: &mut S, n: usize, v: u32) -> usize
    requires { S.fits sink.old }
    ensures { S.adds n (digits v) sink.old sink.new result }
{
    if v < 10 {
        return sink.add(n, Short::One(figure(v)));
    }
    let m = add_number(sink, n, v / 10);
    sink.add(m, Short::One(figure(v % 10)))
}

// Puts a number into the file.
pub fn put_number(file: &mut [u8], n: usize, v: u32) -> usize
    requires { length file.old ≤ 32768 }
    ensures { Puts n (digits v) file.old file.new result }
{
    let mut sink = InFile { file };
    add_number(&mut sink, n, v)
}

// Counts bytes of a macro behind its first n.
pub fn count(n: usize, s: Short) -> usize
    ensures { Counts n (short_text s) result }
{
    end_of(512, n, size_of(s))
}

// Counts the digits of a number.
pub fn count_number(n: usize, v: u32) -> usize
    ensures { Counts n (digits v) result }
{
    add_number(&mut Counter, n, v)
}
