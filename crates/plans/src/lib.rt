// What a macro file will take (02, N8), in numbers: no code. The definitions stand in specs/.
#![tactic(auto)]

// Number and place where reading refuses the file, and then all else is 0. Else the macros, the most elements and the most tags of a macro,
// and the bytes of the file written out; or 0 bytes, and number and place of the refusal of writing out.
#[repr(C)]
#[derive(Clone, Copy)]
pub struct Plan {
    pub number: u32,
    pub place: u32,
    pub macros: u32,
    pub elements: u32,
    pub tags: u32,
    pub bytes: u32,
    pub write_number: u32,
    pub write_place: u32,
}
