// An event that a line names, and the position behind the line. A forgery names where its bytes stand and how many they are.
#[derive(Clone, Copy)]
pub enum Line {
    Start {
        base: u8,
        next: usize,
    },
    Carry {
        from: u8,
        to: u8,
        number: u32,
        next: usize,
    },
    Forge {
        from: u8,
        to: u8,
        at: usize,
        count: usize,
        next: usize,
    },
    Wrong,
}
