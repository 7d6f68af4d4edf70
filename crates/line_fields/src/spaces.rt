// The spaces of a line.

pub fn spaces(line: &[u8]) -> usize {
    line.iter().filter(|b| **b == b' ').count()
}

// The place of a space behind so many others.
pub fn nth_space(line: &[u8], before: usize) -> Option<usize> {
    line.iter()
        .enumerate()
        .filter(|(_, b)| **b == b' ')
        .map(|(i, _)| i)
        .nth(before)
}

// The first place of a space that has no word before it.
pub fn odd_space(line: &[u8]) -> Option<usize> {
    let mut before = b' ';
    for (i, b) in line.iter().enumerate() {
        if *b == b' ' && before == b' ' {
            return Some(i);
        }
        before = *b;
    }
    None
}
