// What a refusal's number means, in the words of docs/RULES.md.
pub fn number_meaning(number: usize) -> &'static str {
    match number {
        1 => "n is not 2 to 16",
        2 => "t is above its limit",
        3 => "the own identifier is zero",
        4 => "the record is not sound",
        5 => "the link number is not 1 to n - 1",
        6 => "the output is shorter than 136 bytes",
        7 => "the burst is shorter than 8 or longer than 132 bytes",
        8 => "the kind is not 1 to 4",
        9 => "the count is not 1 for kinds 1 and 2, or not n for 3 and 4",
        10 => "the back distance is not 4 x count + 4, or exceeds the burst",
        11 => "an identifier in the body is zero",
        12 => "a list is not strictly ascending",
        13 => "a line is missing or breaks the form, or the schedule exceeds 65,536 bytes",
        14 => "two bases have one identifier",
        15 => "more than t links are named faulty",
        16 => "a carry names a message not yet broadcast",
        17 => "a carry repeats one already made in that direction on a good link",
        18 => "a forgery is put on a good link",
        _ => "",
    }
}
