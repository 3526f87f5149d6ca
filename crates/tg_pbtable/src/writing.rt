//! The text of fields.
ghost use Rattle.std.specs.Prelude.{◌≡◌, ◌+◌, ◌*◌, ◌<◌, ◌≤◌, ℕ, List, [], length, All, IfOk, OnOk, OnErr};
ghost use Rattle.tg_pbtable.specs.Wires.{wire_code};
ghost use Rattle.tg_pbtable.specs.Varint.{VarintSpelling};
ghost use Rattle.tg_pbtable.specs.Message.{Message, IsTable, KeySpelling, NumberSpelling, Spelled, AreRuled, IsCount};
ghost use Rattle.tg_pbtable.specs.Message.{FixedSpelling, IsOfWire};
ghost use Rattle.tg_pbtable.specs.Message.{count_of, IsInOrder, numbers_of};
ghost use Rattle.tg_pbtable.specs.Emitted.{LiesIn, AreSameFields, HeadSpelling, BytesSpelling, SizedSpelling};
ghost use Rattle.tg_pbtable.specs.Emitted.{ValueText, Puts, IsSizeOf};
ghost use Rattle.tg_pbtable.specs.declared.table.Field.{Field};
ghost use Rattle.tg_pbtable.specs.declared.table.Order.{Order};

use crate::table::{Field, Fields, Rule, Value, Wire};
use std::alloc::{AllocError, Global};

/// The text of fields in their order, each place taken from the source. The error is want of memory.
///
/// Protobuf encoding guide.
pub fn emit<const N: usize>(
    alloc: Global,
    rules: &[Rule; N],
    fields: &Fields,
    source: &[u8],
) -> Result<Vec<u8>, AllocError>
    requires table { IsTable rules.now }
    requires ruled { AreRuled rules.now fields.now }
    requires inside { All (λ field. LiesIn source.now field.value) fields.now }
    // The text is the spellings of the same fields, at their places in the text.
    ensures text { IfOk result (λ text. (placed : List Field) × Spelled 0 placed text.items
        × AreSameFields source.now fields.now text.items placed) }
    // Where the counts and an order allow the fields, `scan` gives them back.
    ensures again { (order : Order) → All (λ rule. IsCount rule.times (count_of fields.now rule.number)) rules.now
        → IsInOrder order (numbers_of fields.now)
        → IfOk result (λ text. (placed : List Field) × Message rules.now order text.items placed
        × AreSameFields source.now fields.now text.items placed) }
    // Memory is wanted for a field alone.
    ensures memory { OnErr result (0 < length fields.now) }
{
    let mut text = Vec::with_capacity(alloc, size_of_fields(fields.as_slice()))?;
    for field in fields.as_slice() {
        put_field(&mut text, field, source)?;
    }
    Ok(text)
}

/// How many bytes the spellings of the fields take, which is how much is reserved for them.
fn size_of_fields(fields: &[Field]) -> usize
    ensures { fields.now ≡ [] → result ≡ 0 }
{
    let mut size = 0usize;
    for field in fields {
        size = size.saturating_add(size_of_field(field));
    }
    size
}

/// How many bytes the spelling of a field takes.
fn size_of_field(field: &Field) -> usize {
    match (field.wire, field.value) {
        (Wire::Fixed32, _) => size_of_varint(key(field.number, Wire::Fixed32)) + 4,
        (_, Value::Number(value)) => size_of_number(field.number, value),
        (_, Value::Place { start, end }) => {
            size_of_bytes(field.number, end.saturating_sub(start))
        }
    }
}

/// Puts the spelling of a field behind the text.
fn put_field(text: &mut Vec<u8>, field: &Field, source: &[u8]) -> Result<(), AllocError>
    requires wire { IsOfWire field.now.wire field.now.value }
    requires inside { LiesIn source.now field.now.value }
    ensures { OnOk result (Puts (λ bytes. ValueText source.now field.now.number field.now.wire field.now.value bytes)
        text.old.items text.new.items) }
{
    match field.value {
        Value::Number(value) if field.wire == Wire::Fixed32 => {
            put_fixed(text, field.number, value as u32)
        }
        Value::Number(value) => put_number(text, field.number, value),
        Value::Place { start, end } => put_bytes(text, field.number, &source[start..end]),
    }
}

/// Puts a field of a number in four bytes behind the text. The error is want of memory.
///
/// Protobuf encoding guide, Non-varint Numbers.
fn put_fixed(text: &mut Vec<u8>, number: u32, value: u32) -> Result<(), AllocError>
    ensures { OnOk result (Puts (λ bytes. FixedSpelling number value bytes) text.old.items text.new.items) }
{
    put_key(text, number, Wire::Fixed32)?;
    text.extend_from_slice(&value.to_le_bytes())
}

/// Puts a field of a number behind the text. The error is want of memory.
///
/// Protobuf encoding guide, Message Structure.
pub fn put_number(text: &mut Vec<u8>, number: u32, value: u64) -> Result<(), AllocError>
    ensures { OnOk result (Puts (λ bytes. NumberSpelling number value bytes) text.old.items text.new.items) }
{
    put_key(text, number, Wire::Varint)?;
    put_varint(text, value)
}

/// Puts a field of these bytes behind the text. The error is want of memory.
///
/// Protobuf encoding guide, Length-Delimited Records.
pub fn put_bytes(text: &mut Vec<u8>, number: u32, content: &[u8]) -> Result<(), AllocError>
    ensures { OnOk result (Puts (λ bytes. BytesSpelling number content.now bytes) text.old.items text.new.items) }
{
    put_head(text, number, content.len())?;
    text.extend_from_slice(content)
}

/// Puts the key of a field of bytes and their number behind the text; the bytes are to follow. The error is want of
/// memory.
///
/// Protobuf encoding guide, Length-Delimited Records.
pub fn put_head(text: &mut Vec<u8>, number: u32, size: usize) -> Result<(), AllocError>
    ensures { OnOk result (Puts (λ bytes. HeadSpelling number size bytes) text.old.items text.new.items) }
{
    put_key(text, number, Wire::Bytes)?;
    put_varint(text, size as u64)
}

/// How many bytes a field of a number takes.
pub fn size_of_number(number: u32, value: u64) -> usize
    ensures { IsSizeOf (λ bytes. NumberSpelling number value bytes) result }
{
    size_of_varint(key(number, Wire::Varint)) + size_of_varint(value)
}

/// How many bytes a field of so many bytes takes, with its key and their number; the greatest number where it is more.
pub fn size_of_bytes(number: u32, size: usize) -> usize
    ensures { IsSizeOf (λ bytes. SizedSpelling number size bytes) result }
{
    let head = size_of_varint(key(number, Wire::Bytes)) + size_of_varint(size as u64);
    size.saturating_add(head)
}

/// The number that the key of a field is.
fn key(number: u32, wire: Wire) -> u64
    ensures { result ≡ number * 8 + wire_code wire }
{
    u64::from(number) * 8 + wire.code()
}

/// Puts the key of a field behind the text.
fn put_key(text: &mut Vec<u8>, number: u32, wire: Wire) -> Result<(), AllocError>
    ensures { OnOk result (Puts (λ bytes. KeySpelling number (wire_code wire) bytes) text.old.items text.new.items) }
{
    put_varint(text, key(number, wire))
}

/// How many bytes the spelling of a number takes: one for each seven bits, and one at least.
fn size_of_varint(number: u64) -> usize
    ensures spelled { (bytes : List ℕ) → VarintSpelling number bytes → result ≡ length bytes }
    ensures few { result ≤ 10 }
{
    let mut size = 1;
    let mut left = number;
    while left >= 128 {
        left /= 128;
        size += 1;
    }
    size
}

/// Puts the spelling of a number behind the text.
fn put_varint(text: &mut Vec<u8>, number: u64) -> Result<(), AllocError>
    ensures { OnOk result (Puts (λ bytes. VarintSpelling number bytes) text.old.items text.new.items) }
{
    let mut left = number;
    while left >= 128 {
        text.push((left % 128) as u8 + 128)?;
        left /= 128;
    }
    text.push(left as u8)?;
    Ok(())
}
