//! Texts under the tables of UnixFS data, of a modification time and of a node.
ghost use Rattle.tg_pbtable.specs.Message.{IsTable};

use crate::faults::say_message;
use std::alloc::Global;
use std::str::from_utf8;
use tg_bytes::{Bytes, number_of};
use tg_dagpb::NODE;
use tg_pbtable::{
    Field, FieldCursor, Fields, Order, PbFault, Rule, Value, Wire, emit, field_at, scan,
};
use tg_rows::Answer;
use tg_unixfs::{DATA, TIME};

/// `fields TABLE TEXT`: the fields of a text under the table `data`, `time` or `node`, each with its number, how its value
/// is spelled, and the value; or why it is no message. The fields are written as the text again.
pub fn answer_fields(alloc: Global, given: &[Bytes], answer: &mut Answer) {
    let [table, text] = given else {
        return answer.text("a table and a text");
    };
    let text = text.as_slice();
    match from_utf8(table.as_slice()) {
        Ok("data") => say_scanned(alloc, DATA, Order::Ascending, text, answer),
        Ok("time") => say_scanned(alloc, TIME, Order::Ascending, text, answer),
        Ok("node") => say_scanned(alloc, NODE, Order::Runs, text, answer),
        _ => answer.text("an unknown table"),
    }
}

/// Says the fields of a text under a table.
fn say_scanned<const N: usize>(
    alloc: Global,
    rules: &[Rule; N],
    order: Order,
    text: &[u8],
    answer: &mut Answer,
)
    requires { IsTable rules.now }
{
    tg_pbtable::laws::table_laws();
    match scan(alloc, rules, order, text) {
        Ok(fields) => {
            say_fields(&fields, answer);
            match emit(alloc, rules, &fields, text) {
                Ok(written) if written.as_slice() == text => {}
                _ => answer.text("is written otherwise"),
            }
        }
        Err(fault) => say_message(alloc, fault, answer),
    }
}

/// Says how many fields there are, and each.
fn say_fields(fields: &Fields, answer: &mut Answer) {
    answer.number(fields.as_slice().len() as u64);
    for field in fields.as_slice() {
        say_field(field, answer);
    }
}

/// Says a field.
fn say_field(field: &Field, answer: &mut Answer) {
    answer.number(u64::from(field.number));
    answer.text(wire_name(field.wire));
    match field.value {
        Value::Number(number) => answer.number(number),
        Value::Place { start, end } => {
            answer.number(start as u64);
            answer.number(end as u64);
        }
    }
}

/// How a value is spelled.
fn wire_name(wire: Wire) -> &'static str {
    match wire {
        Wire::Varint => "varint",
        Wire::Bytes => "bytes",
        Wire::Fixed32 => "fixed",
    }
}

/// `field-at TEXT AT`: the field that stands at this place of UnixFS data and the place behind it, or why none does.
pub fn answer_field_at(alloc: Global, given: &[Bytes], answer: &mut Answer) {
    let [text, at] = given else {
        return answer.text("a text and a place");
    };
    match number_of(at.as_slice()) {
        Some(at) => say_field_at(alloc, text.as_slice(), at, answer),
        None => answer.text("no place"),
    }
}

/// Says the field that stands at a place.
fn say_field_at(alloc: Global, text: &[u8], at: u64, answer: &mut Answer) {
    if at > text.len() as u64 {
        return answer.text("no place");
    }
    match field_at(DATA, text, at as usize) {
        Ok((field, behind)) => {
            say_field(&field, answer);
            answer.number(behind as u64);
        }
        Err(fault) => say_message(alloc, fault, answer),
    }
}

/// `cursor TEXT`: the first field of UnixFS data that a cursor gives and where it stands then, and what it gives the next
/// two times.
pub fn answer_cursor(alloc: Global, given: &[Bytes], answer: &mut Answer) {
    let [text] = given else {
        return answer.text("a text");
    };
    let text = text.as_slice();
    let mut cursor = FieldCursor::new();
    let first = cursor.next(DATA, Order::Ascending, text);
    let at = cursor.at();
    let second = cursor.next(DATA, Order::Ascending, text);
    let third = cursor.next(DATA, Order::Ascending, text);
    say_next(alloc, first, answer);
    answer.number(at as u64);
    say_next(alloc, second, answer);
    say_next(alloc, third, answer);
}

/// Says what a cursor gave.
fn say_next(alloc: Global, next: Result<Option<Field>, PbFault>, answer: &mut Answer) {
    match next {
        Ok(Some(field)) => say_field(&field, answer),
        Ok(None) => answer.text("end"),
        Err(fault) => say_message(alloc, fault, answer),
    }
}
