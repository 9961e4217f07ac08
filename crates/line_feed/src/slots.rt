// How many macros a table has.
ghost use Rattle.line_feed.specs.Taking.{SomeTable, Counts};

const MOST_MACROS: usize = 96;

// Its slots up to the first unused one.
pub(crate) fn count_macros(table: &[u8]) -> usize
    requires { SomeTable table.now }
    ensures { Counts table.now result }
{
    for k in 0..MOST_MACROS {
        if table[1024 * k] == 0 {
            return k;
        }
    }
    MOST_MACROS
}
