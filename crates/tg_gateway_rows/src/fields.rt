//! Fields of rows, as numbers and lists.
use std::alloc::Global;
use tg_bytes::{Bytes, List, number_of};

/// The number that a field spells, at most this one.
pub fn number_up_to(field: &Bytes, most: u64) -> Option<u64> {
    match number_of(field.as_slice()) {
        Some(number) if number <= most => Some(number),
        _ => None,
    }
}

/// How many bytes one call moves, which a field spells: at least 1.
pub fn piece_of(field: &Bytes) -> Option<usize> {
    match number_up_to(field, 1_000_000) {
        Some(number) if number > 0 => Some(number as usize),
        _ => None,
    }
}

/// The numbers that fields spell; none where one is no number, or memory is wanted.
pub fn numbers_of(alloc: Global, given: &[Bytes]) -> Option<List<u64>> {
    let mut numbers = List::new(alloc);
    for field in given {
        match number_of(field.as_slice()) {
            Some(number) if numbers.push(number).is_ok() => {}
            _ => return None,
        }
    }
    Some(numbers)
}

/// The texts of fields; none where memory is wanted.
pub fn texts_of(alloc: Global, given: &[Bytes]) -> Option<List<Bytes>> {
    let mut texts = List::new(alloc);
    for field in given {
        if !is_pushed(alloc, &mut texts, field) {
            return None;
        }
    }
    Some(texts)
}

/// Adds the text of a field. Whether memory was found.
fn is_pushed(alloc: Global, texts: &mut List<Bytes>, field: &Bytes) -> bool {
    match Bytes::of(alloc, field.as_slice()) {
        Ok(text) => texts.push(text).is_ok(),
        Err(_) => false,
    }
}

/// The fields before the first one that is this word, and those behind it.
pub fn parted<'a>(given: &'a [Bytes], word: &[u8]) -> (&'a [Bytes], &'a [Bytes]) {
    for (at, field) in given.iter().enumerate() {
        if field.as_slice() == word {
            let front = given.get(..at).unwrap_or(given);
            return (front, given.get(at.saturating_add(1)..).unwrap_or(&[]));
        }
    }
    (given, &[])
}
