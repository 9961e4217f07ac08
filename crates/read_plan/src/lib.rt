// What a macro file will take (02, N8): one macro at a time in a slot, no table is made.
#![tactic(auto)]

ghost use Rattle.std.specs.Prelude.{◌≡◌, ◌≤◌, length, get_or};
ghost use Rattle.macros.specs.Bounds.{most_file_bytes};
ghost use Rattle.macros.specs.Formed.{Bytes};
ghost use Rattle.plans.specs.Measure.{measure as measure_of};
ghost use Rattle.write_file.specs.Contract.{SomeMacro};
ghost use Rattle.read_plan.specs.Elements.{begins_element as begins, element_items, slot_elements};
ghost use Rattle.read_plan.specs.Measuring.{meant};

use form_items::layout::{BEFORE_AT, HEADER_BYTES, PATTERN_AT};
use form_items::two_at;
use read_file::file::next_slot;
use read_scan::ReadError;
use read_start::start::whole_file;
use write_file::WriteError;
use write_file::slots::write_on;

// Macros, the most elements and the most tags of a macro, and the bytes of the file written out, or the refusal of writing out.
#[derive(Clone, Copy, Debug, PartialEq, Eq)]
pub struct Measures {
    pub macros: usize,
    pub elements: usize,
    pub tags: usize,
    pub written: Result<usize, WriteError>,
}

// Whether an item begins an element, which is `^`, `$` or a unit with its closure; a brace or a part of a class does not.
fn begins_element(code: u8) -> bool
    ensures { result ≡ begins code }
{
    (3..32).contains(&code)
}

// The elements among the items of a pattern.
fn count_elements(items: &[u8]) -> usize
    ensures { result ≡ element_items items.now }
{
    let mut n = 0;
    for item in items.chunks_exact(2) {
        if begins_element(item[0]) {
            n += 1;
        }
    }
    n
}

// The elements of a slot's pattern.
fn elements_of(slot: &[u8]) -> usize
    requires { SomeMacro slot.now }
    ensures { result ≡ slot_elements slot.now }
{
    let a = HEADER_BYTES + two_at(slot, BEFORE_AT);
    let e = a + two_at(slot, PATTERN_AT);
    count_elements(&slot[a..e])
}

// The tags of a slot.
fn tags_of(slot: &[u8]) -> usize
    requires { SomeMacro slot.now }
    ensures { result ≡ get_or slot.now 1 0 }
{
    usize::from(slot[1])
}

// Measures the macros of a file, each in the same slot.
fn measure_macros(file: &[u8]) -> Result<Measures, ReadError>
    requires { (length file.now ≤ most_file_bytes) × Bytes file.now }
    ensures { meant result ≡ measure_of file.now }
{
    let mut slot = [0u8; 1024];
    let mut at = 0;
    let mut macros = 0;
    let mut elements = 0;
    let mut tags = 0;
    let mut written = Ok(0);
    while let Some(next) = next_slot(file, &mut slot, 0, at, macros)? {
        elements = elements_of(&slot).max(elements);
        tags = tags_of(&slot).max(tags);
        written = write_on(written, &slot);
        macros += 1;
        at = next;
    }
    Ok(Measures {
        macros,
        elements,
        tags,
        written,
    })
}

// What a macro file will take.
pub fn measure(file: &[u8]) -> Result<Measures, ReadError>
    ensures { meant result ≡ measure_of file.now }
{
    whole_file(file)?;
    measure_macros(file)
}
