//! What a run is over, as the fields of a row give it: the command's words, and beside them
//!
//! - `:input BYTES`, of which `:front COUNT` leaves only the first ones;
//! - `:pack BYTES`, what the pack holds;
//! - the folder's entries: `:file NAME BYTES`, `:symlink NAME TARGET`, `:other NAME`, `:below FOLDER NAME BYTES` (a file in
//!   a folder), `:nested COUNT` (so many folders `d` in one another, with the outermost), `:large` (`folders.rt`);
//! - `:link BYTES`, what a peer says whose link comes through the door; `:reply BYTES`, what one says that is dialled;
//! - `:unready`, where the dial says of no link that it is ready;
//! - `:piece SIZE`, how many bytes one call of a stream or of a link moves at most, and as often as it stands a further run;
//! - `:fails OBJECT NUMBER`, a call that fails, counted from 0.
use crate::folders::{counted_folder, nested_folder};
use std::alloc::{AllocError, Global};
use std::mem::replace;
use std::str::from_utf8;
use tg_bytes::{Bytes, List, number_of};
use tg_tree::Tree;

/// An object of a run, of which calls may fail.
#[derive(Clone, Copy, PartialEq, Eq)]
pub enum Object {
    Folder,
    Pack,
    /// The tree that is made, whose `begin` is its first call.
    Tree,
    Input,
    Out,
    Err,
    /// The door and its links, whose calls are numbered in one sequence.
    Door,
    /// The dial and its links, likewise.
    Dial,
}

/// The object with this name.
pub fn object_named(name: &[u8]) -> Option<Object> {
    match from_utf8(name) {
        Ok("folder") => Some(Object::Folder),
        Ok("pack") => Some(Object::Pack),
        Ok("tree") => Some(Object::Tree),
        Ok("input") => Some(Object::Input),
        Ok("out") => Some(Object::Out),
        Ok("err") => Some(Object::Err),
        Ok("door") => Some(Object::Door),
        Ok("dial") => Some(Object::Dial),
        _ => None,
    }
}

/// The name of a folder's entry, and what it is.
type Entry = (Bytes, Tree);

/// What a run is over.
#[derive(Drop)]
pub struct Setup {
    alloc: Global,
    words: Vec<String>,
    entries: Vec<Entry>,
    pack: Bytes,
    input: Bytes,
    links: List<Bytes>,
    replies: List<Bytes>,
    ready: bool,
    fails: Vec<(Object, u64)>,
    pieces: Vec<usize>,
    fault: Option<&'static str>,
}

impl Setup {
    /// No words, over nothing.
    pub fn new(alloc: Global) -> Setup {
        Setup {
            alloc,
            words: Vec::new(alloc),
            entries: Vec::new(alloc),
            pack: Bytes::new(alloc),
            input: Bytes::new(alloc),
            links: List::new(alloc),
            replies: List::new(alloc),
            ready: true,
            fails: Vec::new(alloc),
            pieces: Vec::new(alloc),
            fault: None,
        }
    }

    /// What these fields give.
    pub fn of(alloc: Global, fields: &[Bytes]) -> Setup {
        let mut setup = Setup::new(alloc);
        setup.read(fields);
        setup
    }

    /// Why the fields give nothing to run, if they don't.
    pub fn fault(&self) -> Option<&'static str> {
        self.fault
    }

    fn refuse(&mut self, fault: &'static str) {
        if self.fault.is_none() {
            self.fault = Some(fault);
        }
    }

    fn lack(&mut self) {
        self.refuse("out of memory");
    }

    /// A copy of a field, or of nothing for want of memory.
    fn copied(&mut self, field: &[u8]) -> Bytes {
        match Bytes::of(self.alloc, field) {
            Ok(bytes) => bytes,
            Err(_) => {
                self.lack();
                Bytes::new(self.alloc)
            }
        }
    }

    /// The number that a field has.
    fn number(&mut self, field: &[u8]) -> u64 {
        match number_of(field) {
            Some(number) => number,
            None => {
                self.refuse("no number");
                0
            }
        }
    }

    /// Reads the fields, each with those that belong to it.
    pub fn read(&mut self, fields: &[Bytes]) {
        let mut rest = fields;
        for _ in 0..fields.len() {
            let Some((field, behind)) = rest.split_first() else {
                return;
            };
            let used = match from_utf8(field.as_slice()) {
                Ok(name) => self.take(name, behind),
                Err(_) => 0,
            };
            rest = behind.get(used..).unwrap_or(&[]);
        }
    }

    /// Takes a word, or what this name says with the fields behind it. How many of these it takes.
    fn take(&mut self, name: &str, behind: &[Bytes]) -> usize {
        let first = field_at(behind, 0);
        let second = field_at(behind, 1);
        match name {
            ":input" => self.give_input(first),
            ":front" => self.cut_input(first),
            ":pack" => self.give_pack(first),
            ":link" => self.add_link(first),
            ":reply" => self.add_reply(first),
            ":unready" => self.forbid_ready(),
            ":piece" => self.add_piece(first),
            ":fails" => self.add_fault(first, second),
            _ => self.take_entry(name, behind),
        }
    }

    /// Takes a word, or an entry of the folder.
    fn take_entry(&mut self, name: &str, behind: &[Bytes]) -> usize {
        let first = field_at(behind, 0);
        let second = field_at(behind, 1);
        match name {
            ":file" => self.add_file(first, second),
            ":symlink" => self.add_symlink(first, second),
            ":other" => self.add_entry(first, Tree::Other, 1),
            ":below" => self.add_below(first, second, field_at(behind, 2)),
            ":nested" => self.add_nested(first),
            ":large" => self.add_large(),
            _ => self.add_word(name),
        }
    }

    /// Adds a word of the command.
    pub fn add_word(&mut self, word: &str) -> usize {
        match String::from_str(self.alloc, word) {
            Ok(word) => {
                if self.words.push(word).is_err() {
                    self.lack();
                }
            }
            Err(_) => self.lack(),
        }
        0
    }

    /// Gives the input these bytes.
    pub fn give_input(&mut self, bytes: &[u8]) -> usize {
        self.input = self.copied(bytes);
        1
    }

    /// Leaves of the input its first bytes, so many as the field says.
    fn cut_input(&mut self, count: &[u8]) -> usize {
        let count = self.number(count);
        self.leave_front(count as usize);
        1
    }

    /// Leaves of the input so many of its first bytes.
    pub fn leave_front(&mut self, count: usize) {
        let all = replace(&mut self.input, Bytes::new(self.alloc));
        let front = all.as_slice().get(..count).unwrap_or(all.as_slice());
        self.input = self.copied(front);
    }

    /// How many bytes the input has.
    pub fn input_length(&self) -> usize {
        self.input.as_slice().len()
    }

    /// Gives the pack these bytes.
    pub fn give_pack(&mut self, bytes: &[u8]) -> usize {
        self.pack = self.copied(bytes);
        1
    }

    fn add_link(&mut self, bytes: &[u8]) -> usize {
        let link = self.copied(bytes);
        if self.links.push(link).is_err() {
            self.lack();
        }
        1
    }

    fn add_reply(&mut self, bytes: &[u8]) -> usize {
        let reply = self.copied(bytes);
        if self.replies.push(reply).is_err() {
            self.lack();
        }
        1
    }

    fn forbid_ready(&mut self) -> usize {
        self.ready = false;
        0
    }

    fn add_piece(&mut self, size: &[u8]) -> usize {
        let size = self.number(size);
        if self.pieces.push(size as usize).is_err() {
            self.lack();
        }
        1
    }

    fn add_fault(&mut self, object: &[u8], number: &[u8]) -> usize {
        let number = self.number(number);
        match object_named(object) {
            Some(object) => self.fail(object, number),
            None => self.refuse("no object"),
        }
        2
    }

    /// Has a call of an object fail.
    pub fn fail(&mut self, object: Object, number: u64) {
        if self.fails.push((object, number)).is_err() {
            self.lack();
        }
    }

    fn add_entry(&mut self, name: &[u8], tree: Tree, used: usize) -> usize {
        let name = self.copied(name);
        if self.entries.push((name, tree)).is_err() {
            self.lack();
        }
        used
    }

    fn add_file(&mut self, name: &[u8], bytes: &[u8]) -> usize {
        let file = Tree::File(self.copied(bytes));
        self.add_entry(name, file, 2)
    }

    fn add_symlink(&mut self, name: &[u8], target: &[u8]) -> usize {
        let link = Tree::Symlink(self.copied(target));
        self.add_entry(name, link, 2)
    }

    /// Adds a folder with one file.
    fn add_below(&mut self, folder: &[u8], name: &[u8], bytes: &[u8]) -> usize {
        let file = (self.copied(name), Tree::File(self.copied(bytes)));
        let mut entries = Vec::new(self.alloc);
        if entries.push(file).is_err() {
            self.lack();
        }
        self.add_entry(folder, Tree::Folder(entries), 3)
    }

    /// Adds folders in one another.
    fn add_nested(&mut self, levels: &[u8]) -> usize {
        let levels = self.number(levels);
        let made = nested_folder(self.alloc, levels);
        self.give_entries(made);
        1
    }

    /// Adds what the folder of `.ci/program` has.
    fn add_large(&mut self) -> usize {
        let made = counted_folder(self.alloc);
        self.give_entries(made);
        0
    }

    fn give_entries(&mut self, made: Result<Vec<Entry>, AllocError>) {
        match made {
            Ok(entries) => self.entries = entries,
            Err(_) => self.lack(),
        }
    }

    /// The lengths of pieces that the fields give, or else some that few things depend on.
    pub fn pieces(&self) -> &[usize] {
        if self.pieces.is_empty() {
            &[1, 7, 64, 65_536]
        } else {
            self.pieces.as_slice()
        }
    }

    /// The first of them.
    pub fn piece(&self) -> usize {
        match self.pieces().first() {
            Some(piece) => *piece,
            None => 1,
        }
    }

    /// Whether the dial says of its links that they are ready.
    pub fn is_ready(&self) -> bool {
        self.ready
    }

    /// The command's words.
    pub fn words(&self) -> &[String] {
        self.words.as_slice()
    }

    /// The numbers of the calls of an object that fail.
    pub fn numbers(&mut self, object: Object) -> List<u64> {
        let mut numbers = List::new(self.alloc);
        let mut lacks = false;
        for (failing, number) in self.fails.as_slice() {
            if *failing == object && numbers.push(*number).is_err() {
                lacks = true;
            }
        }
        if lacks {
            self.lack();
        }
        numbers
    }

    /// The folder, which is taken.
    pub fn take_folder(&mut self) -> Tree {
        Tree::Folder(replace(&mut self.entries, Vec::new(self.alloc)))
    }

    /// What the pack holds, which is taken.
    pub fn take_pack(&mut self) -> Bytes {
        replace(&mut self.pack, Bytes::new(self.alloc))
    }

    /// The input, which is taken.
    pub fn take_input(&mut self) -> Bytes {
        replace(&mut self.input, Bytes::new(self.alloc))
    }

    /// What the peers say whose links come through the door, which is taken.
    pub fn take_links(&mut self) -> List<Bytes> {
        replace(&mut self.links, List::new(self.alloc))
    }

    /// What the peers say that are dialled, which is taken.
    pub fn take_replies(&mut self) -> List<Bytes> {
        replace(&mut self.replies, List::new(self.alloc))
    }
}

/// The field with this number, or nothing.
fn field_at(fields: &[Bytes], number: usize) -> &[u8] {
    match fields.get(number) {
        Some(field) => field.as_slice(),
        None => &[],
    }
}
