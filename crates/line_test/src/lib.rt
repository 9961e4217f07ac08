// What refuses a line before its passes: 4, then 21, then 22 (01, part 6).
#![tactic(auto)]

ghost use Rattle.line_test.specs.Test.{Tested, Firsts};

const MOST_BUDGET: u32 = 1000000;

const MOST_LINE_BYTES: usize = 1054;

// Why a line is refused before its passes.
#[derive(Clone, Copy, Debug, PartialEq, Eq)]
pub enum Why {
    BudgetTooLarge,
    LineTooLong,
    BadByte,
}

// 22: "holds byte 0 or line feed".
pub fn has_bad_byte(line: &[u8]) -> bool
    ensures { Tested line.now result }
{
    line.iter().any(|b| *b == 0 || *b == b'\n')
}

// The first refusal that is due with this budget; of a line that is too long the bytes are not looked at.
pub fn first_refusal(line: &[u8], budget: u32) -> Result<(), Why>
    ensures { Firsts line.now budget result }
{
    if MOST_BUDGET < budget {
        return Err(Why::BudgetTooLarge);
    }
    if MOST_LINE_BYTES < line.len() {
        return Err(Why::LineTooLong);
    }
    if has_bad_byte(line) {
        return Err(Why::BadByte);
    }
    Ok(())
}
