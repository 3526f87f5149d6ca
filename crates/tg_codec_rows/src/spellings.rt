//! Varints, base 32, and the hashes of names.
use crate::faults::{say_base32, say_varint};
use std::alloc::Global;
use tg_base32::{decode, encode};
use tg_bytes::{Bytes, number_of};
use tg_murmur::{hash64, slot};
use tg_rows::Answer;
use tg_varint::{read, write};

/// `varint NUMBER`: its spelling, where that is read as the number again.
pub fn answer_varint(given: &[Bytes], answer: &mut Answer) {
    match given {
        [number] => match number_of(number.as_slice()) {
            Some(number) => say_spelling(number, answer),
            None => answer.text("no number"),
        },
        _ => answer.text("a number"),
    }
}

/// Says the spelling of a number below 2^63.
fn say_spelling(number: u64, answer: &mut Answer) {
    if number > i64::MAX as u64 {
        return answer.text("too great");
    }
    let (spelling, length) = write(number);
    let spelling = &spelling[..length];
    answer.bytes(spelling);
    if read(spelling) != Ok((number, length)) {
        answer.text("is read otherwise");
    }
}

/// `number BYTES`: the number at the front and how many bytes spell it, or why none does.
pub fn answer_number(alloc: Global, given: &[Bytes], answer: &mut Answer) {
    let [bytes] = given else {
        return answer.text("some bytes");
    };
    match read(bytes.as_slice()) {
        Ok((number, length)) => {
            answer.number(number);
            answer.number(length as u64);
        }
        Err(fault) => say_varint(alloc, fault, answer),
    }
}

/// `base32 BYTES`: their text, where that is read as the bytes again.
pub fn answer_base32(alloc: Global, given: &[Bytes], answer: &mut Answer) {
    let [bytes] = given else {
        return answer.text("some bytes");
    };
    match encode(alloc, bytes.as_slice()) {
        Ok(text) => say_text(alloc, bytes.as_slice(), text.as_slice(), answer),
        Err(_) => answer.lack(),
    }
}

/// Says the text of bytes.
fn say_text(alloc: Global, bytes: &[u8], text: &[u8], answer: &mut Answer) {
    answer.bytes(text);
    match decode(alloc, text) {
        Ok(read) if read.as_slice() == bytes => {}
        _ => answer.text("is read otherwise"),
    }
}

/// `bytes TEXT`: the bytes with this text in base 32, or why there are none.
pub fn answer_bytes(alloc: Global, given: &[Bytes], answer: &mut Answer) {
    let [text] = given else {
        return answer.text("a text");
    };
    match decode(alloc, text.as_slice()) {
        Ok(bytes) => answer.bytes(bytes.as_slice()),
        Err(fault) => say_base32(alloc, fault, answer),
    }
}

/// `hash NAME`: its hash, in hexadecimal digits.
pub fn answer_hash(alloc: Global, given: &[Bytes], answer: &mut Answer) {
    match given {
        [name] => say_hash(alloc, hash64(name.as_slice()), answer),
        _ => answer.text("a name"),
    }
}

/// Says a hash.
fn say_hash(alloc: Global, hash: u64, answer: &mut Answer) {
    match format!(in alloc; "{hash:016x}") {
        Ok(digits) => answer.text(digits.as_str()),
        Err(_) => answer.lack(),
    }
}

/// `hash-of-length LENGTH`: the hash of the text of so many bytes, at most 48, whose byte i is (7 * i + length) % 256.
pub fn answer_hash_of_length(alloc: Global, given: &[Bytes], answer: &mut Answer) {
    match given {
        [length] => match number_of(length.as_slice()) {
            Some(length @ 0..=48) => say_hash(alloc, hash_of_length(length as usize), answer),
            _ => answer.text("no such length"),
        },
        _ => answer.text("a length"),
    }
}

/// The hash of the text of so many bytes, at most 48.
fn hash_of_length(length: usize) -> u64 {
    let mut text = [0u8; 48];
    let length = length.min(48);
    for i in 0..length {
        text[i] = ((7 * i + length) % 256) as u8;
    }
    hash64(&text[..length])
}

/// `slots NAME`: the slots that its hash chooses, from level 0 to level 7, in hexadecimal digits.
pub fn answer_slots(alloc: Global, given: &[Bytes], answer: &mut Answer) {
    let [name] = given else {
        return answer.text("a name");
    };
    let hash = hash64(name.as_slice());
    for level in 0..8 {
        say_slot(alloc, slot(hash, level), answer);
    }
}

/// Says a slot.
fn say_slot(alloc: Global, slot: u8, answer: &mut Answer) {
    match format!(in alloc; "{slot:02x}") {
        Ok(digits) => answer.text(digits.as_str()),
        Err(_) => answer.lack(),
    }
}
