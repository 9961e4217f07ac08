// Tests of a byte of a macro: which need a `\` where they stand, in the shortest spelling and written out.
#![tactic(auto)]

ghost use Rattle.std.specs.Prelude.{◌≡◌, [], ◌∷◌};
ghost use Rattle.macros.specs.Macro.{within, among, is_range};
ghost use Rattle.macros.specs.Read.{signs};
ghost use Rattle.macros.specs.Write.{pattern_marks, class_marks, text_marks};
ghost use Rattle.form_table.specs.Walk.{bit as bit_of};

// Whether a byte is one of a to z.
pub fn is_within(a: u8, z: u8, b: u8) -> bool
    ensures { result ≡ within a z b }
{
    (a..=z).contains(&b)
}

// Whether a class may have the range from a to z.
pub fn is_range(a: u8, z: u8) -> bool
    ensures { result ≡ is_range a z }
{
    let digits = a.is_ascii_digit() & z.is_ascii_digit();
    let uppers = a.is_ascii_uppercase() & z.is_ascii_uppercase();
    let lowers = a.is_ascii_lowercase() & z.is_ascii_lowercase();
    (digits | (uppers | lowers)) & (a <= z)
}

// 1 for a test that holds, else 0.
pub fn bit(t: bool) -> u32
    ensures { result ≡ bit_of t }
{
    u32::from(t)
}

// SHORTEST SPELLING

// `' ;`, line feed and `\` need it everywhere. Four comparisons have no branch; a `match`, even over the first three, has.
fn is_common(b: u8) -> bool
    ensures { result ≡ among (39 ∷ 59 ∷ 10 ∷ 92 ∷ []) b }
{
    (b == b'\'') | ((b == b';') | ((b == b'\n') | (b == b'\\')))
}

// Of the signs of a pattern those below 64, and the others: each set is a mask of one word. Neighbours stand in different arms of a
// `match`, since a range of bytes would be tested as one.
fn is_low_sign(b: u8) -> bool
    ensures { result ≡ among (10 ∷ 36 ∷ 39 ∷ 42 ∷ 47 ∷ 59 ∷ []) b }
{
    matches!(b, b'\n' | b'$' | b'\'' | b'*' | b'/' | b';')
}

fn is_high_sign(b: u8) -> bool
    ensures { result ≡ among (91 ∷ 94 ∷ 123 ∷ 125 ∷ 92 ∷ []) b }
{
    match b {
        b'[' | b'^' | b'{' | b'}' => true,
        b'\\' => true,
        _ => false,
    }
}

// In a pattern.
pub fn is_sign(b: u8) -> bool
    ensures { result ≡ among (47 ∷ signs) b }
{
    is_low_sign(b) | is_high_sign(b)
}

// In a class.
pub fn is_class_sign(b: u8) -> bool
    ensures { result ≡ among (93 ∷ 39 ∷ 59 ∷ 10 ∷ 92 ∷ []) b }
{
    (b == b']') | is_common(b)
}

// In a replacement.
pub fn is_replacement_sign(b: u8) -> bool
    ensures { result ≡ among (47 ∷ 39 ∷ 59 ∷ 10 ∷ 92 ∷ 123 ∷ []) b }
{
    (b == b'/') | (is_common(b) | (b == b'{'))
}

// In a call's text.
pub fn is_text_sign(b: u8) -> bool
    ensures { result ≡ among (47 ∷ 58 ∷ 39 ∷ 59 ∷ 10 ∷ 92 ∷ []) b }
{
    (b == b'/') | ((b == b':') | is_common(b))
}

// WRITTEN OUT: each set is a mask of one word, as those above

// Of the marks of a pattern those below 64; the others are the signs above.
fn is_low_mark(b: u8) -> bool
    ensures { result ≡ among (9 ∷ 35 ∷ 38 ∷ 42 ∷ 45 ∷ 47 ∷ 59 ∷ 63 ∷ 10 ∷ 36 ∷ 39 ∷ []) b }
{
    match b {
        b'\t' | b'#' | b'&' | b'*' | b'-' | b'/' | b';' | b'?' => true,
        b'\n' | b'$' | b'\'' => true,
        _ => false,
    }
}

// In a pattern.
pub fn is_pattern_mark(b: u8) -> bool
    ensures { result ≡ among pattern_marks b }
{
    is_low_mark(b) | is_high_sign(b)
}

// Of the marks of a class those below 64.
fn is_low_class_mark(b: u8) -> bool
    ensures { result ≡ among (9 ∷ 39 ∷ 45 ∷ 59 ∷ 10 ∷ []) b }
{
    match b {
        b'\t' | b'\'' | b'-' | b';' => true,
        b'\n' => true,
        _ => false,
    }
}

// Of the marks of a class the others.
fn is_high_class_mark(b: u8) -> bool
    ensures { result ≡ among (92 ∷ 126 ∷ 93 ∷ []) b }
{
    match b {
        b'\\' | b'~' => true,
        b']' => true,
        _ => false,
    }
}

// In a class.
pub fn is_class_mark(b: u8) -> bool
    ensures { result ≡ among class_marks b }
{
    is_low_class_mark(b) | is_high_class_mark(b)
}

// Of the marks of a text those below 64.
fn is_low_text_mark(b: u8) -> bool
    ensures { result ≡ among (9 ∷ 35 ∷ 38 ∷ 47 ∷ 58 ∷ 10 ∷ 39 ∷ 59 ∷ []) b }
{
    match b {
        b'\t' | b'#' | b'&' | b'/' | b':' => true,
        b'\n' | b'\'' | b';' => true,
        _ => false,
    }
}

// Of the marks of a text the others.
fn is_high_text_mark(b: u8) -> bool
    ensures { result ≡ among (92 ∷ 123 ∷ []) b }
{
    matches!(b, b'\\' | b'{')
}

// In a replacement or a call's text.
pub fn is_text_mark(b: u8) -> bool
    ensures { result ≡ among text_marks b }
{
    is_low_text_mark(b) | is_high_text_mark(b)
}
