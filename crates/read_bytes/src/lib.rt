// Single bytes of a macro file: breaks, letters and digits, and what an escape means.
#![tactic(auto)]

ghost use Rattle.std.specs.Prelude.{◌≡◌};
ghost use Rattle.macros.specs.Macro.{ascii_lower, digit};
ghost use Rattle.macros.specs.Read.{breaks, escaped};

// The byte that `\` and a byte mean.
pub fn escaped_byte(b: u8) -> u8
    ensures { result ≡ escaped b }
{
    if b == b'n' {
        return 10;
    }
    if b == b't' {
        return 9;
    }
    b
}

// A raw quote, `;` or line feed.
pub fn is_break(b: u8) -> bool
    ensures { result ≡ breaks b }
{
    if b == b'\'' {
        return true;
    }
    if b == b';' {
        return true;
    }
    b == 10
}

// A lower case letter.
pub fn is_lower(b: u8) -> bool
    ensures { result ≡ ascii_lower b }
{
    97 <= b && b <= 122
}

// A digit.
pub fn is_digit(b: u8) -> bool
    ensures { result ≡ digit b }
{
    48 <= b && b <= 57
}
