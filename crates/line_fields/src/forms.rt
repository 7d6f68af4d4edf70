// The forms of a schedule's lines.
use crate::line::field;
use crate::spaces::spaces;

#[derive(Clone, Copy, PartialEq)]
pub enum Form {
    Net,
    Id,
    Faulty,
    Start,
    Carry,
    Forge,
}

impl Form {
    // Of a line by its word, where there is such a word.
    pub fn of_line(line: &[u8]) -> Option<Form> {
        match field(line, 0) {
            b"net" => Some(Form::Net),
            b"id" => Some(Form::Id),
            b"faulty" => Some(Form::Faulty),
            b"start" => Some(Form::Start),
            b"carry" => Some(Form::Carry),
            b"forge" => Some(Form::Forge),
            _ => None,
        }
    }

    // The word, and the names of the fields behind it.
    pub fn text(self) -> &'static str {
        match self {
            Form::Net => "net n t",
            Form::Id => "id b v",
            Form::Faulty => "faulty a b",
            Form::Start => "start b",
            Form::Carry => "carry a b k",
            Form::Forge => "forge a b hex",
        }
    }

    // The name of field i.
    pub fn name(self, i: usize) -> &'static str {
        self.text().split(' ').nth(i).unwrap_or("")
    }

    // How many fields stand behind the word.
    pub fn asked(self) -> usize {
        spaces(self.text().as_bytes())
    }
}
