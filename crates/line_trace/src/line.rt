// A line as it stands.

// `line L: ` and the schedule's own line.
pub fn show_line(out: &impl Print, number: usize, line: &[u8]) {
    let _ = print!(out; "line {number}: ");
    let _ = out.write_all(line);
    let _ = println!(out);
}
