//! Reads rows. A row begins where a line does and goes on over the lines that begin with a blank; its fields stand
//! between blanks, and what is wanted behind `->`. `NAME = FIELD` gives a field a name, and `with FILE` takes the names of
//! another file. A line that begins with `#` is passed over.
use std::alloc::Global;
use std::mem::replace;
use tg_bytes::{Bytes, List, number_of};

/// Why rows can't be read.
#[derive(Clone, Copy, PartialEq, Eq)]
pub enum RowsFault {
    /// The text of this line is no field.
    Bad { line: u64 },
    OutOfMemory,
}

/// A row: the line that it begins on, what is given, and what is wanted.
#[derive(Drop)]
pub struct Row {
    pub line: u64,
    pub given: List<Bytes>,
    pub wanted: List<Bytes>,
}

impl Row {
    /// The file whose names this row asks for, if it is `with FILE`.
    pub fn names_of(&self) -> Option<&[u8]> {
        match (self.given.as_slice(), self.wanted.as_slice().is_empty()) {
            ([with, file], true) if with.as_slice() == b"with".as_slice() => Some(file.as_slice()),
            _ => None,
        }
    }
}

/// A name, and the field that it stands for.
#[derive(Drop)]
pub struct Named {
    name: Bytes,
    field: Bytes,
}

/// Where a reader is in a text, the names that it knows, and the field that it reads.
#[derive(Drop)]
pub struct Reader<'a> {
    alloc: Global,
    text: &'a [u8],
    at: usize,
    line: u64,
    field: Bytes,
    names: List<Named>,
    fault: Option<RowsFault>,
}

impl<'a> Reader<'a> {
    /// A reader at the start of a text, which knows these names.
    pub fn new(alloc: Global, text: &'a [u8], names: List<Named>) -> Reader<'a> {
        Reader {
            alloc,
            text,
            at: 0,
            line: 1,
            field: Bytes::new(alloc),
            names,
            fault: None,
        }
    }

    /// Why the last row couldn't be read, if it couldn't.
    pub fn fault(&self) -> Option<RowsFault> {
        self.fault
    }

    /// Takes the names that it knows.
    pub fn take_names(&mut self) -> List<Named> {
        replace(&mut self.names, List::new(self.alloc))
    }

    /// Gives it the names that it knows from here on.
    pub fn give_names(&mut self, names: List<Named>) {
        self.names = names;
    }

    fn peek(&self) -> Option<u8> {
        self.text.get(self.at).copied()
    }

    fn step(&mut self) {
        self.at = self.at.saturating_add(1);
    }

    /// Takes a byte, and counts its line.
    fn take(&mut self) -> Option<u8> {
        let byte = self.peek()?;
        self.step();
        if byte == b'\n' {
            self.line = self.line.saturating_add(1);
        }
        Some(byte)
    }

    /// That the text is no row.
    fn refuse(&mut self) {
        if self.fault.is_none() {
            self.fault = Some(RowsFault::Bad { line: self.line });
        }
    }

    fn lack(&mut self) {
        self.fault = Some(RowsFault::OutOfMemory);
    }

    fn push(&mut self, bytes: &[u8]) {
        if self.field.push_all(bytes).is_err() {
            self.lack();
        }
    }

    /// Takes the field that was read.
    fn take_field(&mut self) -> Bytes {
        replace(&mut self.field, Bytes::new(self.alloc))
    }

    /// Passes over what is blank.
    fn skip_blanks(&mut self) {
        for _ in self.at..self.text.len() {
            if self.peek() != Some(b' ') {
                return;
            }
            self.step();
        }
    }

    fn skip_line(&mut self) {
        for _ in self.at..self.text.len() {
            if self.take() == Some(b'\n') {
                return;
            }
        }
    }

    /// Passes over empty lines and those that begin with `#`.
    fn skip_comments(&mut self) {
        for _ in self.at..self.text.len() {
            match self.peek() {
                Some(b'#' | b'\n') => self.skip_line(),
                _ => return,
            }
        }
    }

    /// Reads what stands behind a backslash.
    fn read_escape(&mut self) {
        match self.take() {
            Some(b'n') => self.push(b"\n"),
            Some(b'r') => self.push(b"\r"),
            Some(b't') => self.push(b"\t"),
            Some(b'0') => self.push(b"\0"),
            Some(b'x') => self.read_hex(),
            // a line that goes on
            Some(b'\n') => self.skip_blanks(),
            Some(byte @ (b'\\' | b'"' | b'{' | b'}')) => self.push(&[byte]),
            _ => self.refuse(),
        }
    }

    fn read_hex(&mut self) {
        let high = self.take();
        let low = self.take();
        match (digit_of(high), digit_of(low)) {
            (Some(high), Some(low)) => self.push(&[high << 4 | low]),
            _ => self.refuse(),
        }
    }

    /// Reads bytes into the field, up to this one that ends them.
    fn read_until(&mut self, end: u8) {
        for _ in self.at..self.text.len() {
            match self.take() {
                Some(b'\\') => self.read_escape(),
                Some(b'\n') => return self.refuse(),
                Some(byte) if byte == end => return,
                Some(byte) => self.push(&[byte]),
                None => return,
            }
        }
        self.refuse();
    }

    /// Reads what stands in braces: a name, or `N*BYTES` for so many times these bytes.
    fn read_braced(&mut self) {
        let held = self.take_field();
        self.read_until(b'}');
        let inside = replace(&mut self.field, held);
        match inside.as_slice().iter().position(|byte| *byte == b'*') {
            Some(at) => self.repeat(inside.as_slice(), at),
            None => self.push_named(inside.as_slice()),
        }
    }

    /// Adds so many times the bytes behind the star, which is at this place.
    fn repeat(&mut self, inside: &[u8], at: usize) {
        let (digits, behind) = inside.split_at(at.min(inside.len()));
        match (number_of(digits), behind.split_first()) {
            (Some(count), Some((_, bytes))) => self.push_times(bytes, count.min(1_000_000)),
            _ => self.refuse(),
        }
    }

    fn push_times(&mut self, bytes: &[u8], count: u64) {
        for _ in 0..count {
            self.push(bytes);
        }
    }

    fn push_named(&mut self, name: &[u8]) {
        match field_named(self.names.as_slice(), name) {
            Some(field) => {
                if self.field.push_all(field).is_err() {
                    self.fault = Some(RowsFault::OutOfMemory);
                }
            }
            None => self.refuse(),
        }
    }

    /// Reads a field, which ends at a blank that isn't quoted.
    fn read_field(&mut self) {
        for _ in self.at..self.text.len() {
            match self.peek() {
                None | Some(b' ' | b'\n') => return,
                Some(b'"') => {
                    self.step();
                    self.read_quoted();
                }
                Some(_) => self.read_bare(),
            }
        }
    }

    fn read_bare(&mut self) {
        match self.take() {
            Some(b'\\') => self.read_escape(),
            Some(b'{') => self.read_braced(),
            Some(byte) => self.push(&[byte]),
            None => {}
        }
    }

    fn read_quoted(&mut self) {
        for _ in self.at..self.text.len() {
            match self.peek() {
                Some(b'"') => return self.step(),
                Some(b'\n') => return self.refuse(),
                _ => self.read_bare(),
            }
        }
        self.refuse();
    }

    /// Whether the next field is the arrow, which is passed over.
    fn takes_arrow(&mut self) -> bool {
        let is_arrow = self.text.get(self.at..).is_some_and(|rest| {
            rest.starts_with(b"-> ") || rest.starts_with(b"->\n") || rest == b"->".as_slice()
        });
        if is_arrow {
            self.at = self.at.saturating_add(2);
        }
        is_arrow
    }

    /// Goes to the row's next field. Whether it has one.
    fn finds_field(&mut self) -> bool {
        for _ in self.at..self.text.len() {
            self.skip_blanks();
            if self.peek() != Some(b'\n') {
                return self.peek().is_some();
            }
            self.take();
            if self.peek() != Some(b' ') {
                return false;
            }
        }
        false
    }

    /// Reads the fields of a row.
    fn read_fields(&mut self, row: &mut Row) {
        let mut is_wanted = false;
        for _ in self.at..self.text.len() {
            if !self.finds_field() {
                return;
            }
            if self.takes_arrow() {
                is_wanted = true;
            } else {
                self.read_field();
                let field = self.take_field();
                self.keep(row, field, is_wanted);
            }
        }
    }

    fn keep(&mut self, row: &mut Row, field: Bytes, is_wanted: bool) {
        let fields = if is_wanted {
            &mut row.wanted
        } else {
            &mut row.given
        };
        if fields.push(field).is_err() {
            self.lack();
        }
    }

    /// Gives a field a name, if the row does so. Whether it does.
    fn names(&mut self, row: &Row) -> bool {
        let [name, equals, field] = row.given.as_slice() else {
            return false;
        };
        if equals.as_slice() != b"=".as_slice() {
            return false;
        }
        self.add_name(name.as_slice(), field.as_slice());
        true
    }

    fn add_name(&mut self, name: &[u8], field: &[u8]) {
        if field_named(self.names.as_slice(), name).is_some() {
            return self.refuse();
        }
        let (Ok(name), Ok(field)) = (Bytes::of(self.alloc, name), Bytes::of(self.alloc, field))
        else {
            return self.lack();
        };
        if self.names.push(Named { name, field }).is_err() {
            self.lack();
        }
    }

    /// Reads the next row, if there is one, and the names before it.
    pub fn next_row(&mut self) -> Option<Row> {
        for _ in self.at..self.text.len() {
            self.skip_comments();
            if self.fault.is_some() || self.peek().is_none() {
                return None;
            }
            let mut row = Row {
                line: self.line,
                given: List::new(self.alloc),
                wanted: List::new(self.alloc),
            };
            self.read_fields(&mut row);
            if !self.names(&row) {
                return Some(row);
            }
        }
        None
    }
}

/// The field with this name.
fn field_named<'a>(names: &'a [Named], name: &[u8]) -> Option<&'a [u8]> {
    for each in names {
        if each.name.as_slice() == name {
            return Some(each.field.as_slice());
        }
    }
    None
}

/// The value of a hexadecimal digit.
fn digit_of(byte: Option<u8>) -> Option<u8> {
    match byte? {
        byte @ b'0'..=b'9' => Some(byte - b'0'),
        byte @ b'a'..=b'f' => Some(byte - b'a' + 10),
        _ => None,
    }
}
