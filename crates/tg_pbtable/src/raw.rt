//! Varints and fields where they stand, before any table is asked.
ghost use Rattle.std.specs.Prelude.{◌≡◌, ◌<◌, ◌≤◌, length, drop, MatchResult};
ghost use Rattle.tg_pbtable.specs.Reading.{IsVarintAt, IsVarintFault, IsValueAt, IsValueFault, IsFieldAt, IsFieldFault};
ghost use Rattle.tg_pbtable.specs.Reading.{IsFixedAt, IsFixedFault, IsPlaceAt, IsPlaceFault};

use crate::table::{Value, Wire};

/// Why nothing is read: the bytes end too soon, or a varint is bad.
#[derive(Clone, Copy)]
pub(crate) enum ReadFault {
    Short,
    Bad,
}

/// A field as it stands: its number and its value. One of a wire type that no table has isn't read.
#[derive(Clone, Copy)]
pub(crate) struct RawField {
    pub(crate) number: u64,
    pub(crate) value: Option<RawValue>,
}

/// A value as it stands, with its wire type and the offset behind it.
#[derive(Clone, Copy)]
pub(crate) struct RawValue {
    pub(crate) wire: Wire,
    pub(crate) value: Value,
    pub(crate) next: usize,
}

/// The field of which the key stands at `at`.
#[inline(always)]
pub(crate) fn raw_field_at(bytes: &[u8], at: usize) -> Result<RawField, ReadFault>
    requires { at ≤ length bytes.now }
    ensures { MatchResult result (λ raw. IsFieldAt at (drop at bytes.now) raw)
        (λ e. IsFieldFault e (drop at bytes.now)) }
{
    let (key, size) = varint_at(&bytes[at..])?;
    let value = value_at(bytes, at + size, key % 8)?;
    Ok(RawField {
        number: key / 8,
        value,
    })
}

/// The value of a wire type at `at`.
#[inline(always)]
fn value_at(bytes: &[u8], at: usize, code: u64) -> Result<Option<RawValue>, ReadFault>
    requires { at ≤ length bytes.now }
    ensures { MatchResult result (λ value. IsValueAt at (drop at bytes.now) code value)
        (λ e. IsValueFault e code (drop at bytes.now)) }
{
    let Some(wire) = Wire::with_code(code) else {
        return Ok(None);
    };
    let (value, next) = match wire {
        Wire::Varint => {
            let (number, size) = varint_at(&bytes[at..])?;
            (Value::Number(number), at + size)
        }
        Wire::Bytes => {
            let (start, end) = place_at(bytes, at)?;
            (Value::Place { start, end }, end)
        }
        Wire::Fixed32 => (Value::Number(fixed_at(&bytes[at..])?), at + 4),
    };
    Ok(Some(RawValue { wire, value, next }))
}

/// Where the bytes lie of which the length stands at `at`.
#[inline(always)]
fn place_at(bytes: &[u8], at: usize) -> Result<(usize, usize), ReadFault>
    requires { at ≤ length bytes.now }
    ensures { MatchResult result (λ place. IsPlaceAt at (drop at bytes.now) place.0 place.1)
        (λ e. IsPlaceFault e (drop at bytes.now)) }
{
    let (number, size) = varint_at(&bytes[at..])?;
    let start = at + size;
    if number > (bytes.len() - start) as u64 {
        return Err(ReadFault::Short);
    }
    Ok((start, start + number as usize))
}

/// The number that the first four bytes are, the least significant one first.
#[inline(always)]
fn fixed_at(bytes: &[u8]) -> Result<u64, ReadFault>
    ensures { MatchResult result (λ number. IsFixedAt bytes.now number)
        (λ e. IsFixedFault e bytes.now) }
{
    let Some(four) = bytes.first_chunk::<4>() else {
        return Err(ReadFault::Short);
    };
    Ok(u64::from(u32::from_le_bytes(*four)))
}

/// The number that a varint at the front spells, and how many bytes it takes.
#[inline(always)]
fn varint_at(bytes: &[u8]) -> Result<(u64, usize), ReadFault>
    ensures { MatchResult result (λ r. IsVarintAt bytes.now r.0 r.1) (λ e. IsVarintFault e bytes.now) }
{
    match bytes.first() {
        // Most keys and lengths take one byte.
        Some(byte) if *byte < 128 => Ok((u64::from(*byte), 1)),
        _ => long_varint_at(bytes),
    }
}

/// The number and the size of a varint of any size.
#[inline(never)]
fn long_varint_at(bytes: &[u8]) -> Result<(u64, usize), ReadFault>
    ensures { MatchResult result (λ r. IsVarintAt bytes.now r.0 r.1) (λ e. IsVarintFault e bytes.now) }
{
    let mut number = 0u64;
    for (i, byte) in bytes.iter().enumerate() {
        if i == 9 && *byte != 1 {
            return Err(ReadFault::Bad);
        }
        number += u64::from(*byte % 128) << (7 * i);
        if *byte < 128 {
            if *byte == 0 && i > 0 {
                return Err(ReadFault::Bad);
            }
            return Ok((number, i + 1));
        }
    }
    Err(ReadFault::Short)
}
