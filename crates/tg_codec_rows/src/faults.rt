//! Faults: their names and numbers, and how they are printed.
use std::alloc::{AllocError, Global};
use std::fmt::Display;
use tg_base32::Base32Fault;
use tg_car::CarFault;
use tg_cid::CidFault;
use tg_pbtable::PbFault;
use tg_rows::Answer;
use tg_unixfs::UnixFault;
use tg_varint::VarintFault;

/// The name of a fault, and its numbers.
#[derive(Clone, Copy)]
struct Parts {
    name: &'static str,
    first: Option<u64>,
    second: Option<u64>,
}

/// The parts of a fault without numbers.
fn bare(name: &'static str) -> Parts {
    Parts {
        name,
        first: None,
        second: None,
    }
}

/// The parts of a fault with a number.
fn with(name: &'static str, number: u64) -> Parts {
    Parts {
        name,
        first: Some(number),
        second: None,
    }
}

/// The parts of a fault with two numbers.
fn with_both(name: &'static str, first: u64, second: u64) -> Parts {
    Parts {
        name,
        first: Some(first),
        second: Some(second),
    }
}

/// Says a fault.
fn say(parts: &Parts, answer: &mut Answer) {
    answer.text(parts.name);
    if let Some(number) = parts.first {
        answer.number(number);
    }
    if let Some(number) = parts.second {
        answer.number(number);
    }
}

/// The name and the numbers, with a blank before each number.
fn joined(alloc: Global, parts: &Parts) -> Result<String, AllocError> {
    let name = parts.name;
    match (parts.first, parts.second) {
        (Some(first), Some(second)) => format!(in alloc; "{name} {first} {second}"),
        (Some(first), None) => format!(in alloc; "{name} {first}"),
        _ => format!(in alloc; "{name}"),
    }
}

/// Says a fault, and how it is printed where that isn't its name and its numbers.
fn say_printed(alloc: Global, parts: &Parts, fault: &impl Display, answer: &mut Answer) {
    say(parts, answer);
    match joined(alloc, parts) {
        Ok(text) => answer.printed(fault, text.as_str()),
        Err(_) => answer.lack(),
    }
}

/// Says why bytes are no varint.
pub fn say_varint(alloc: Global, fault: VarintFault, answer: &mut Answer) {
    let parts = match fault {
        VarintFault::Short => bare("Short"),
        VarintFault::TooLong => bare("TooLong"),
        VarintFault::NotShortest => bare("NotShortest"),
    };
    say_printed(alloc, &parts, &fault, answer);
}

/// Says why a text is none of base 32.
pub fn say_base32(alloc: Global, fault: Base32Fault, answer: &mut Answer) {
    let parts = match fault {
        Base32Fault::BadChar { at } => with("BadChar", at as u64),
        Base32Fault::BadLength => bare("BadLength"),
        Base32Fault::BadTail => bare("BadTail"),
        Base32Fault::OutOfMemory => bare("OutOfMemory"),
    };
    say_printed(alloc, &parts, &fault, answer);
}

/// Says why bytes or a text are no CID.
pub fn say_cid(alloc: Global, fault: CidFault, answer: &mut Answer) {
    let parts = match fault {
        CidFault::BadText => bare("BadText"),
        CidFault::BadVersion { number } => with("BadVersion", number),
        CidFault::BadCodec { number } => with("BadCodec", number),
        CidFault::BadHash { number } => with("BadHash", number),
        CidFault::BadLength { number } => with("BadLength", number),
        CidFault::Trailing { at } => with("Trailing", at),
        CidFault::Short { at } => with("Short", at),
        CidFault::BadVarint { at } => with("BadVarint", at),
        CidFault::OutOfMemory => bare("OutOfMemory"),
    };
    say_printed(alloc, &parts, &fault, answer);
}

/// Says why bytes are no CAR.
pub fn say_car(alloc: Global, fault: CarFault, answer: &mut Answer) {
    let parts = match fault {
        CarFault::BadHeader { at } => with("BadHeader", at),
        CarFault::BadSection { at } => with("BadSection", at),
        CarFault::BlockLimit { at, number } => with_both("BlockLimit", at, number),
        CarFault::Torn { at } => with("Torn", at),
        CarFault::OutOfMemory => bare("OutOfMemory"),
    };
    say_printed(alloc, &parts, &fault, answer);
}

/// The parts of the fault of a message.
fn parts_of(fault: PbFault) -> Parts {
    match fault {
        PbFault::Short { at } => with("Short", at),
        PbFault::BadVarint { at } => with("BadVarint", at),
        PbFault::Unknown { at, number } => with_both("Unknown", at, number),
        PbFault::WrongWire { at } => with("WrongWire", at),
        PbFault::OutOfOrder { at } => with("OutOfOrder", at),
        PbFault::Doubled { at } => with("Doubled", at),
        PbFault::Missing { number } => with("Missing", number),
        PbFault::OutOfMemory => bare("OutOfMemory"),
    }
}

/// Says why a text is no message under a table.
pub fn say_message(alloc: Global, fault: PbFault, answer: &mut Answer) {
    say_printed(alloc, &parts_of(fault), &fault, answer);
}

/// Says why a text is no UnixFS data.
pub fn say_unix(alloc: Global, fault: UnixFault, answer: &mut Answer) {
    match fault {
        UnixFault::Pb(inner) => say_inner("Pb", inner, answer),
        UnixFault::BadTime(inner) => say_inner("BadTime", inner, answer),
        UnixFault::BadKind { number } => {
            say_printed(alloc, &with("BadKind", number), &fault, answer)
        }
        UnixFault::BadHash { number } => {
            say_printed(alloc, &with("BadHash", number), &fault, answer)
        }
        UnixFault::BadFanout { number } => {
            say_printed(alloc, &with("BadFanout", number), &fault, answer)
        }
        UnixFault::OutOfMemory => answer.text("OutOfMemory"),
    }
}

/// Says a fault that has the fault of a message in it.
fn say_inner(name: &str, inner: PbFault, answer: &mut Answer) {
    answer.text(name);
    say(&parts_of(inner), answer);
}
