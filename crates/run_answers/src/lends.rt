// Three refusals of the host: a memory of another size, bytes that are no table, and bytes that are no state.
use line_answer::Answer;

// 3: a state of a byte less.
pub(crate) fn other_size() -> Answer {
    let mut state: [u8; 52235] = [0; 52235];
    m7::fresh::m7_fresh(&mut state)
}

// 1: bytes that are no table.
pub(crate) fn no_table() -> Answer {
    let table: [u8; 98304] = [255; 98304];
    let mut file: [u8; 32768] = [0; 32768];
    m7::write::m7_write(&table, &mut file)
}

// 2: bytes that are no state.
pub(crate) fn no_state() -> Answer {
    let mut table: [u8; 98304] = [0; 98304];
    let mut state: [u8; 52236] = [0; 52236];
    let mut text: [u8; 1054] = [0; 1054];
    let mut trace: [u8; 65536] = [0; 65536];
    m7::feed::m7_feed(&mut table, &mut state, b"do", 1, &mut text, &mut trace)
}
