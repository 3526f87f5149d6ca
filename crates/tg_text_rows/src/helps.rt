//! The table of help beside the words that are taken.
use crate::commands::{say_words, strings_of};
use std::alloc::Global;
use tg_bytes::Bytes;
use tg_rows::Answer;
use tg_words::{CommandName, CommandRow, OptionRow, OptionValue, help_for};

/// Says of each option in a command's row what it takes, where lines with and without it are read so; and whether lines
/// with the options of other commands are refused, and the example is taken.
///
/// Given are the command's name, the words of a line without options, and behind them `--NAME=VALUE` for each option that
/// takes a word.
pub fn answer(alloc: Global, given: &[Bytes], answer: &mut Answer) {
    match strings_of(alloc, given) {
        Some(words) => say_table(alloc, words.as_slice(), answer),
        None => answer.lack(),
    }
}

fn say_table(alloc: Global, words: &[String], answer: &mut Answer) {
    match words.split_first() {
        Some((name, given)) => match CommandName::of(name.as_str()) {
            Some(command) => say_row(alloc, help_for(command), given, answer),
            None => answer.text("an unknown command"),
        },
        None => answer.text("no command"),
    }
}

fn say_row(alloc: Global, row: CommandRow, given: &[String], answer: &mut Answer) {
    let lines = Lines {
        alloc,
        name: row.name,
        given,
        options: row.options,
    };
    answer.text(row.name);
    for option in row.options {
        say_option(&lines, *option, answer);
    }
    for other in CommandName::ALL {
        say_others(&lines, help_for(*other).options, answer);
    }
    if !is_taken(&example(alloc, row.example)) {
        answer.text("its example is refused");
    }
}

/// The lines of a command, with the words that stand in each of them.
#[derive(Clone, Copy)]
struct Lines<'a> {
    alloc: Global,
    name: &'a str,
    given: &'a [String],
    options: &'a [OptionRow],
}

impl Lines<'_> {
    /// A line with the options that have to stand, but for one of this name.
    fn line(&self, but: &str) -> Line {
        let mut line = Line::new(self.alloc);
        line.text(self.name);
        for word in self.given {
            if !word.as_str().starts_with("--") {
                line.text(word.as_str());
            }
        }
        for option in self.options {
            if option.name != but {
                line.needed(*option);
            }
        }
        line
    }

    /// What a line without the option asks.
    fn without(&self, name: &str) -> Bytes {
        self.line(name).said()
    }

    /// What a line asks in which the option has this number.
    fn with_number(&self, name: &str, number: u64) -> Bytes {
        let mut line = self.line(name);
        line.number(name, number);
        line.said()
    }

    /// What a line asks in which the option has a number of 21 digits.
    fn with_digits(&self, name: &str) -> Bytes {
        let mut line = self.line(name);
        line.digits(name);
        line.said()
    }

    /// What a line asks in which the option has the word that is given for it.
    fn with_given(&self, name: &str) -> Bytes {
        let mut line = self.line(name);
        for word in self.given {
            if is_of(name, word.as_str()) {
                line.text(word.as_str());
            }
        }
        line.said()
    }

    /// What a line asks in which the option stands alone.
    fn with_flag(&self, name: &str) -> Bytes {
        let mut line = self.line(name);
        line.flag(name);
        line.said()
    }
}

/// A command line that is put together. Where memory is wanted it asks nothing.
#[derive(Drop)]
struct Line {
    alloc: Global,
    words: Vec<String>,
    lacks: bool,
}

impl Line {
    fn new(alloc: Global) -> Line {
        Line {
            alloc,
            words: Vec::new(alloc),
            lacks: false,
        }
    }

    fn push(&mut self, word: String) {
        if self.words.push(word).is_err() {
            self.lacks = true;
        }
    }

    fn text(&mut self, text: &str) {
        match String::from_str(self.alloc, text) {
            Ok(word) => self.push(word),
            Err(_) => self.lacks = true,
        }
    }

    fn number(&mut self, name: &str, number: u64) {
        match format!(in self.alloc; "--{name}={number}") {
            Ok(word) => self.push(word),
            Err(_) => self.lacks = true,
        }
    }

    fn digits(&mut self, name: &str) {
        match format!(in self.alloc; "--{name}=100000000000000000000") {
            Ok(word) => self.push(word),
            Err(_) => self.lacks = true,
        }
    }

    fn flag(&mut self, name: &str) {
        match format!(in self.alloc; "--{name}") {
            Ok(word) => self.push(word),
            Err(_) => self.lacks = true,
        }
    }

    /// Adds an option that has to stand, with its least number.
    fn needed(&mut self, option: OptionRow) {
        if let OptionValue::Number {
            low,
            default: None,
            ..
        } = option.value
        {
            self.number(option.name, low);
        }
    }

    fn said(&self) -> Bytes {
        let mut answer = Answer::new(self.alloc);
        if self.lacks {
            answer.lack();
        } else {
            say_words(self.alloc, self.words.as_slice(), &mut answer);
        }
        answer.shown()
    }
}

/// Whether a word is an option of this name with its value.
fn is_of(name: &str, word: &str) -> bool {
    match word.strip_prefix("--") {
        Some(rest) => match rest.strip_prefix(name) {
            Some(value) => value.starts_with("="),
            None => false,
        },
        None => false,
    }
}

fn is_refused(said: &Bytes) -> bool {
    said.as_slice() == b" \"Usage\"".as_slice()
}

fn is_taken(said: &Bytes) -> bool {
    !said.as_slice().is_empty() && !is_refused(said)
}

/// Says what an option takes, where the lines with it and without it are read so.
fn say_option(lines: &Lines<'_>, option: OptionRow, answer: &mut Answer) {
    answer.text(option.name);
    match option.value {
        OptionValue::Nothing => {
            if is_taken(&lines.with_flag(option.name)) {
                answer.text("alone");
            }
        }
        OptionValue::Word(_) => {
            if is_taken(&lines.with_given(option.name)) {
                answer.text("word");
            }
        }
        OptionValue::Number { low, high, default } => {
            say_low(lines, option.name, low, answer);
            say_high(lines, option.name, high, answer);
            say_default(lines, option.name, default, answer);
        }
    }
}

/// Says the least number, where it is taken and the one below is refused.
fn say_low(lines: &Lines<'_>, name: &str, low: u64, answer: &mut Answer) {
    let is_least = match low.checked_sub(1) {
        Some(below) => is_refused(&lines.with_number(name, below)),
        None => true,
    };
    if is_least && is_taken(&lines.with_number(name, low)) {
        answer.number(low);
    }
}

/// Says the greatest number, where it is taken and the one above is refused; above 2^64 - 1, one of 21 digits.
fn say_high(lines: &Lines<'_>, name: &str, high: u64, answer: &mut Answer) {
    let is_greatest = match high.checked_add(1) {
        Some(above) => is_refused(&lines.with_number(name, above)),
        None => is_refused(&lines.with_digits(name)),
    };
    if is_greatest && is_taken(&lines.with_number(name, high)) {
        answer.number(high);
    }
}

/// Says the number that stands where the option is absent, or that it has to stand.
fn say_default(lines: &Lines<'_>, name: &str, default: Option<u64>, answer: &mut Answer) {
    let absent = lines.without(name);
    match default {
        Some(number) => {
            if is_taken(&absent)
                && absent.as_slice() == lines.with_number(name, number).as_slice()
            {
                answer.number(number);
            }
        }
        None => {
            if is_refused(&absent) {
                answer.text("needed");
            }
        }
    }
}

/// Says which of these options are taken without standing in the command's row.
fn say_others(lines: &Lines<'_>, others: &[OptionRow], answer: &mut Answer) {
    for other in others {
        if !has_option(lines.options, other.name) && !is_refused_too(lines, other.name) {
            answer.text(other.name);
            answer.text("isn't in its row");
        }
    }
}

fn is_refused_too(lines: &Lines<'_>, name: &str) -> bool {
    is_refused(&lines.with_flag(name)) && is_refused(&lines.with_number(name, 1))
}

fn has_option(options: &[OptionRow], name: &str) -> bool {
    for option in options {
        if option.name == name {
            return true;
        }
    }
    false
}

/// What the words of an example ask, up to where it sends a file to input or out to a file.
fn example(alloc: Global, example: &str) -> Bytes {
    let mut line = Line::new(alloc);
    for word in example.split(' ') {
        if word == "<" || word == ">" {
            break;
        }
        line.text(word);
    }
    line.said()
}
