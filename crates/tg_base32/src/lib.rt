//! Base 32 in lower case and without padding (RFC 4648, section 6), the encoding of multibase `b`.
#![tactic(auto)]

ghost use Rattle.std.specs.Prelude.{◌≡◌, ℕ, ◌+◌, ◌*◌, ◌/◌, ◌<◌, ◌↔◌, List, ◌++◌, length, drop, All, Any, IfOk, IsErrOf};
ghost use Rattle.std.specs.Prelude.{IsTrue, MatchOption, MatchResult};
ghost use Rattle.tg_base32.specs.Base32.{Base32Text, IsFirstOutside, HasNoLength, HasTail, IsLetter, IsNoLength};
ghost use Rattle.tg_base32.specs.Base32.{value_of, bits, bits_of_bytes, bits_of_text};
ghost use Rattle.tg_base32.specs.Held.{IsHeld, bits_of, Reads, TakesLetter, TakesByte, MovesLetter};
ghost use Rattle.tg_base32.specs.declared.Base32Fault.{Base32Fault};
ghost use Rattle.tg_base32.specs.declared.Base32Fault.TheVariants.{OutOfMemory};

pub mod laws;

use std::alloc::{AllocError, Global};
use thiserror::Error;

/// Why a text isn't base 32.
#[derive(Clone, Copy, Debug, PartialEq, Eq, Error)]
pub enum Base32Fault {
    /// The letter at `at`, counted from 0, is the first outside `a` to `z` and `2` to `7`.
    #[error("BadChar {at}")]
    BadChar { at: u64 },
    /// The number of letters is 1, 3 or 6 modulo 8.
    #[error("BadLength")]
    BadLength,
    /// A bit after the last whole byte is set.
    #[error("BadTail")]
    BadTail,
    /// No memory was found for the bytes.
    #[error("OutOfMemory")]
    OutOfMemory,
}

impl From<AllocError> for Base32Fault {
    ghost from_gives = { λ _ e. e ≡ OutOfMemory };

    fn from(_: AllocError) -> Self {
        Base32Fault::OutOfMemory
    }
}

/// The bytes that a text spells.
///
/// RFC 4648, section 6, in lower case and without padding. Errors, in this order: `BadChar` at the first letter outside
/// the alphabet, `BadLength`, `BadTail`, and `OutOfMemory` for want of memory alone.
pub fn decode(alloc: Global, text: &[u8]) -> Result<Vec<u8>, Base32Fault>
    // What is read is spelled so, and what is spelled so is read, unless memory is wanted.
    ensures found { IfOk result (λ bytes. Base32Text text.now bytes.items) }
    ensures only { (bytes : List ℕ) → Base32Text text.now bytes
        → MatchResult result (λ found. found.items ≡ bytes) (λ e. e ≡ Base32Fault.OutOfMemory) }

    // Each refusal comes exactly where its cause holds.
    ensures bad_char { (at : ℕ) → IsErrOf result (Base32Fault.BadChar at) ↔ IsFirstOutside text.now at }
    ensures bad_length { IsErrOf result Base32Fault.BadLength ↔ HasNoLength text.now }
    ensures bad_tail { IsErrOf result Base32Fault.BadTail ↔ HasTail text.now }
    // Memory is wanted for the bytes of a good text alone.
    ensures memory { IsErrOf result Base32Fault.OutOfMemory → (bytes : List ℕ) × Base32Text text.now bytes }
{
    if let Some(at) = first_outside(text) {
        return Err(Base32Fault::BadChar { at: at as u64 });
    }
    if is_no_length(text.len()) {
        return Err(Base32Fault::BadLength);
    }
    if has_tail(text) {
        return Err(Base32Fault::BadTail);
    }
    Ok(bytes_of(alloc, text)?)
}

/// The one text that spells the bytes.
///
/// RFC 4648, section 6, in lower case and without padding. The error is want of memory.
pub fn encode(alloc: Global, bytes: &[u8]) -> Result<Vec<u8>, AllocError>
    ensures { IfOk result (λ text. Base32Text text.items bytes.now) }
{
    let letters = bytes.len() / 5 * 8 + (bytes.len() % 5 * 8).div_ceil(5);
    let mut text = Vec::with_capacity(alloc, letters)?;
    let mut held = Held { value: 0, count: 0 };
    for byte in bytes {
        held = take_byte(&mut text, held, *byte)?;
    }
    if held.count > 0 {
        // The unused bits of the last letter are zero.
        text.push(letter_for((held.value << (5 - held.count)) as u8))?;
    }
    Ok(text)
}

/// Bits that don't make a whole byte or letter yet: the lowest `count` of `value`.
#[derive(Clone, Copy)]
struct Held {
    value: u16,
    count: u16,
}

/// The place of the first letter outside the alphabet.
fn first_outside(text: &[u8]) -> Option<usize>
    ensures { MatchOption result (All IsLetter text.now) (λ at. IsFirstOutside text.now at) }
{
    text.iter().position(|letter| !is_letter(*letter))
}

/// Whether the letter is of the alphabet.
fn is_letter(letter: u8) -> bool
    ensures { IsTrue result ↔ IsLetter letter }
{
    matches!(letter, b'a'..=b'z' | b'2'..=b'7')
}

/// What a letter of the alphabet stands for.
fn letter_value(letter: u8) -> u8
    requires { IsLetter letter }
    ensures { result ≡ value_of letter }
{
    if letter < b'a' {
        letter - b'2' + 26
    } else {
        letter - b'a'
    }
}

/// The letter that stands for a value.
fn letter_for(value: u8) -> u8
    requires { value < 32 }
    ensures is_letter { IsLetter result }
    ensures value { value_of result ≡ value }
{
    if value < 26 {
        value + b'a'
    } else {
        value - 26 + b'2'
    }
}

/// Whether no bytes have a text of this many letters.
fn is_no_length(letters: usize) -> bool
    ensures { IsTrue result ↔ IsNoLength letters }
{
    matches!(letters % 8, 1 | 3 | 6)
}

/// Whether a bit after the last whole byte is set. Such bits are the lowest of the last letter.
fn has_tail(text: &[u8]) -> bool
    requires letters { All IsLetter text.now }
    requires length_is { ¬ IsNoLength (length text.now) }
    ensures { IsTrue result ↔ Any (λ bit. bit ≡ 1) (drop (8 * (5 * length text.now / 8)) (bits_of_text text.now)) }
{
    let unused = text.len() % 8 * 5 % 8;
    match text.last() {
        Some(last) => letter_value(*last) % (1 << unused) != 0,
        None => false,
    }
}

/// The bytes whose bits the letters are, but for fewer than eight bits at the end.
fn bytes_of(alloc: Global, text: &[u8]) -> Result<Vec<u8>, AllocError>
    requires { All IsLetter text.now }
    ensures { IfOk result (λ bytes. Reads text.now bytes.items) }
{
    let mut bytes = Vec::with_capacity(alloc, text.len() / 8 * 5 + text.len() % 8 * 5 / 8)?;
    let mut held = Held { value: 0, count: 0 };
    for letter in text {
        held = take_letter(&mut bytes, held, *letter)?;
    }
    Ok(bytes)
}

/// Holds a letter's bits too, and moves the first eight of them to the bytes if there are as many.
fn take_letter(bytes: &mut Vec<u8>, held: Held, letter: u8) -> Result<Held, AllocError>
    requires held { IsHeld 8 held }
    requires letter { IsLetter letter }
    ensures { IfOk result (λ rest. TakesLetter bytes.old.items held letter bytes.new.items rest) }
{
    let value = held.value * 32 + u16::from(letter_value(letter));
    if held.count < 3 {
        return Ok(Held {
            value,
            count: held.count + 5,
        });
    }
    let count = held.count - 3;
    bytes.push((value >> count) as u8)?;
    Ok(Held {
        value: value % (1 << count),
        count,
    })
}

/// Holds a byte's bits too, and moves the first ones to the text as whole letters.
fn take_byte(text: &mut Vec<u8>, held: Held, byte: u8) -> Result<Held, AllocError>
    requires { IsHeld 5 held }
    ensures { IfOk result (λ rest. TakesByte text.old.items held byte text.new.items rest) }
{
    let held = Held {
        value: held.value * 256 + u16::from(byte),
        count: held.count + 8,
    };
    let held = push_letter(text, held)?;
    push_letter(text, held)
}

/// Moves the first five bits to the text if there are as many.
fn push_letter(text: &mut Vec<u8>, held: Held) -> Result<Held, AllocError>
    requires { IsHeld 13 held }
    ensures { IfOk result (λ rest. MovesLetter text.old.items held text.new.items rest) }
{
    if held.count < 5 {
        return Ok(held);
    }
    let count = held.count - 5;
    text.push(letter_for((held.value >> count) as u8))?;
    Ok(Held {
        value: held.value % (1 << count),
        count,
    })
}
