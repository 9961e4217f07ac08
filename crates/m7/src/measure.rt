// Measuring a macro file (02, N8).
ghost use Rattle.std.specs.Prelude.{◌≡◌, ◌≤◌};
ghost use Rattle.macros.specs.Bounds.{most_file_bytes};
ghost use Rattle.plans.specs.MeasureLaw.{Small};
ghost use Rattle.plans.specs.Numbers.{plan, unread_plan, told, plan_of};
ghost use Rattle.read_plan.specs.Measuring.{meant, took};

use plans::Plan;
use read_plan::Measures;
use read_scan::ReadError;

// What a macro file will take. No memory is lent, and no table is made.
pub fn m7_measure(file: &[u8]) -> Plan
    ensures { result ≡ plan_of file.now }
{
    in_numbers(read_plan::measure(file))
}

// What was measured, in numbers.
fn in_numbers(measured: Result<Measures, ReadError>) -> Plan
    requires { Small (meant measured) }
    ensures { result ≡ told (meant measured) }
{
    match measured {
        Ok(m) => read_to_end(m),
        Err(e) => unread(u32::from(e.fault), e.place),
    }
}

// A file that reading takes.
fn read_to_end(m: Measures) -> Plan
    requires { Small (took m) }
    ensures { result ≡ told (took m) }
{
    match m.written {
        Ok(size) => with_size(m, size, 0, 0),
        Err(e) => with_size(m, 0, u32::from(e.fault), e.place),
    }
}

// The bytes of the file written out, or number and place of the refusal, beside the other numbers.
fn with_size(m: Measures, size: usize, number: u32, place: usize) -> Plan
    requires { (m.macros ≤ most_file_bytes) × (m.elements ≤ most_file_bytes) × (m.tags ≤ most_file_bytes) × (size ≤ most_file_bytes) × (place ≤ most_file_bytes) }
    ensures { result ≡ plan 0 0 m.macros m.elements m.tags size number place }
{
    Plan {
        number: 0,
        place: 0,
        macros: m.macros as u32,
        elements: m.elements as u32,
        tags: m.tags as u32,
        bytes: size as u32,
        write_number: number,
        write_place: place as u32,
    }
}

// A file that reading refuses.
fn unread(number: u32, place: usize) -> Plan
    requires { place ≤ most_file_bytes }
    ensures { result ≡ unread_plan number place }
{
    Plan {
        number,
        place: place as u32,
        macros: 0,
        elements: 0,
        tags: 0,
        bytes: 0,
        write_number: 0,
        write_place: 0,
    }
}
