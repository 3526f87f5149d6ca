//! UnixFS data where it stands in its payload, read without memory.
ghost use Rattle.std.specs.Prelude.{◌≡◌, ℕ, ◌<◌, ◌≤◌, ◌∷◌, ◌++◌, [], length, List as Items, IfOk, IfErr, IfSome, OnOk};
ghost use Rattle.std.specs.Prelude.{All, MatchOption, MatchResult, slice_range};
ghost use Rattle.tg_pbtable.specs.Emitted.{LiesIn};
ghost use Rattle.tg_pbtable.specs.Message.{IsOfWire};
ghost use Rattle.tg_pbtable.specs.Faults.{HasCause};
ghost use Rattle.tg_pbtable.specs.Place.{AreInside, placed_bytes};
ghost use Rattle.tg_pbtable.specs.Values.{numbers_at, bytes_at, later, listed};
ghost use Rattle.tg_pbtable.specs.declared.table.Order.TheVariants.{Ascending};
ghost use Rattle.tg_unixfs.specs.Unix.{IsTime, UnixText};
ghost use Rattle.tg_unixfs.specs.Faults.{HasUnixCause};
ghost use Rattle.tg_unixfs.specs.Reading.{Gathers};
ghost use Rattle.tg_unixfs.specs.Places.{HasDataAt, IsAmong, IsBadTimeAt, IsBadTimeFrom, IsBetween, IsCursor};
ghost use Rattle.tg_unixfs.specs.Places.{MayStand, MayNotStand, placed_unix};
ghost use Rattle.tg_unixfs.specs.declared.TheConstants.{TIME};
ghost use Rattle.tg_unixfs.specs.declared.Unix.{Unix};
ghost use Rattle.tg_unixfs.specs.declared.UnixFault.{UnixFault};

use crate::{DATA, FANOUT, MURMUR, TIME, UnixFault};
use tg_pbtable::{Field, FieldCursor, Order, PbFault, Place, Value, field_at};

/// UnixFS data without its blocksizes, of which the inline bytes lie at a place of the payload.
///
/// UnixFS specification, Data Format.
#[derive(Clone, Copy)]
pub struct UnixPlaces {
    pub kind: u64,
    pub inline: Option<Place>,
    pub filesize: Option<u64>,
    pub hash: Option<u64>,
    pub fanout: Option<u64>,
}

/// The data that a payload spells but for its blocksizes, with the answer of `decode`; it takes no memory.
///
/// UnixFS specification, Data Format. Errors: those of `decode` in its order, but for want of memory.
pub fn places_of(bytes: &[u8]) -> Result<UnixPlaces, UnixFault>
    ensures found { IfOk result (λ places. HasDataAt bytes.now places) }
    ensures inside { IfOk result (λ places. AreInside bytes.now places.inline) }
    // A cursor over the blocksizes begins at the front.
    ensures cursor { OnOk result (IsCursor bytes.now 0) }
    ensures only { (unix : Unix) → UnixText unix bytes.now
        → MatchResult result (λ places. unix ≡ placed_unix bytes.now places unix.sizes) (λ _. ⊥) }

    // It refuses exactly where a cause holds, and with the fault of that cause.
    ensures cause { IfErr result (λ e. HasUnixCause bytes.now e) }
    ensures given { (fault : UnixFault) → HasUnixCause bytes.now fault → result ≡ Err fault }
{
    tg_pbtable::laws::table_laws();
    let mut places = UnixPlaces {
        kind: 0,
        inline: None,
        filesize: None,
        hash: None,
        fanout: None,
    };
    let mut time = None;
    let mut cursor = FieldCursor::new();
    while let Some(field) = cursor.next(DATA, Order::Ascending, bytes)? {
        places = with_part(places, &field);
        time = with_time(time, &field);
    }
    check_time(bytes, time)?;
    check(places)?;
    Ok(places)
}

/// The place of the modification time after one field more.
fn with_time(time: Option<Place>, field: &Field) -> Option<Place>
    requires { IsOfWire field.now.wire field.now.value }
    ensures bytes { (text : Items ℕ) → placed_bytes text result
        ≡ later (placed_bytes text time) (bytes_at text 8 (field.now ∷ [])) }
    ensures inside { (text : Items ℕ) → LiesIn text field.now.value → AreInside text time → AreInside text result }
    ensures among { (before : Items Field) → IsAmong before time → IsAmong (before ++ field.now ∷ []) result }
{
    match field.value {
        Value::Place { start, end } if field.number == 8 => Some(Place { start, end }),
        _ => time,
    }
}

/// Whether the bytes at the place of a modification time are one, where there is such a place.
fn check_time(bytes: &[u8], time: Option<Place>) -> Result<(), UnixFault>
    requires { AreInside bytes.now time }
    ensures { MatchResult result (λ _. All IsTime (listed (placed_bytes bytes.now time)))
        (λ e. IsBadTimeAt bytes.now time e) }
{
    let Some(time) = time else {
        return Ok(());
    };
    match time_between(bytes, time.start, time.end) {
        Ok(()) => Ok(()),
        Err(fault) => Err(UnixFault::BadTime(fault)),
    }
}

/// Whether the bytes from `start` up to and without `end` are a modification time; the place of a fault is one of the
/// text.
fn time_between(bytes: &[u8], start: usize, end: usize) -> Result<(), PbFault>
    requires rises { start ≤ end }
    requires inside { end ≤ length bytes.now }
    ensures { MatchResult result (λ _. IsTime (slice_range bytes.now start end))
        (λ e. IsBadTimeFrom bytes.now start end e) }
{
    tg_pbtable::laws::table_laws();
    match time_in(&bytes[start..end]) {
        Ok(()) => Ok(()),
        Err(fault) => Err(fault.moved_by(start)),
    }
}

/// Whether the bytes are a modification time; the place of a fault is one of these bytes.
fn time_in(bytes: &[u8]) -> Result<(), PbFault>
    ensures { MatchResult result (λ _. IsTime bytes.now) (λ e. HasCause TIME.now Ascending bytes.now e) }
{
    tg_pbtable::laws::table_laws();
    let mut cursor = FieldCursor::new();
    while let Some(_) = cursor.next(TIME, Order::Ascending, bytes)? {}
    Ok(())
}

/// The data with the value of a field.
fn with_part(places: UnixPlaces, field: &Field) -> UnixPlaces
    ensures gathers { (text sizes : Items ℕ) → Gathers text (field.now ∷ []) (placed_unix text places sizes)
        (placed_unix text result (sizes ++ numbers_at 4 (field.now ∷ []))) }
    ensures inside { (text : Items ℕ) → LiesIn text field.now.value → AreInside text places.inline
        → AreInside text result.inline }
{
    let mut new = places;
    match field.value {
        Value::Number(value) => match field.number {
            1 => new.kind = value,
            3 => new.filesize = Some(value),
            5 => new.hash = Some(value),
            6 => new.fanout = Some(value),
            _ => {}
        },
        Value::Place { start, end } => {
            if field.number == 2 {
                new.inline = Some(Place { start, end });
            }
        }
    }
    new
}

/// Whether data with these parts may stand.
fn check(places: UnixPlaces) -> Result<(), UnixFault>
    ensures { MatchResult result (λ _. MayStand places) (λ e. MayNotStand places e) }
{
    match places.kind {
        0 | 1 | 2 | 4 => Ok(()),
        5 => check_shard(places),
        number => Err(UnixFault::BadKind { number }),
    }
}

/// Whether the hash and the fanout are those of a shard.
fn check_shard(places: UnixPlaces) -> Result<(), UnixFault>
    requires { places.kind ≡ 5 }
    ensures { MatchResult result (λ _. MayStand places) (λ e. MayNotStand places e) }
{
    let hash = places.hash.unwrap_or(0);
    if hash != MURMUR {
        return Err(UnixFault::BadHash { number: hash });
    }
    let fanout = places.fanout.unwrap_or(0);
    if fanout != FANOUT {
        return Err(UnixFault::BadFanout { number: fanout });
    }
    Ok(())
}

/// The first blocksize at a cursor or behind it, and the cursor behind it; none where no blocksize is left.
///
/// A cursor is 0 or what an earlier call gave. It takes no memory, and reads at most seven fields besides.
pub fn size_at(bytes: &[u8], at: usize) -> Option<(u64, usize)>
    requires { IsCursor bytes.now at }
    ensures next { (behind ahead : Items ℕ) → IsBetween bytes.now at behind ahead
        → MatchOption result (ahead ≡ []) (λ found. (more : Items ℕ) × (ahead ≡ found.0 ∷ more)
        × IsBetween bytes.now found.1 (behind ++ found.0 ∷ []) more) }
    ensures cursor { IfSome result (λ found. IsCursor bytes.now found.1) }
    ensures forward { IfSome result (λ found. (at < found.1) × (found.1 ≤ length bytes.now)) }
{
    tg_pbtable::laws::table_laws();
    let mut from = at;
    while let Ok((field, next)) = field_at(DATA, bytes, from) {
        if let Some(size) = size_of(&field) {
            return Some((size, next));
        }
        from = next;
    }
    None
}

/// The blocksize that a field is, where it is one.
fn size_of(field: &Field) -> Option<u64>
    ensures { MatchOption result (numbers_at 4 (field.now ∷ []) ≡ []) (λ size. numbers_at 4 (field.now ∷ []) ≡ size
        ∷ []) }
{
    match field.value {
        Value::Number(size) if field.number == 4 => Some(size),
        _ => None,
    }
}
