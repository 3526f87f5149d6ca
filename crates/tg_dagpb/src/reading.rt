//! Nodes and links read from their blocks.
ghost use Rattle.std.specs.Prelude.{◌≡◌, ℕ, ◌+◌, ◌<◌, ◌^◌, ◌≤◌, ◌⊎◌, ◌∷◌, ◌++◌, [], length, slice_range, All};
ghost use Rattle.std.specs.Prelude.{List as Items, IfOk, IfErr, IfSome, IsErrOf, OnOk, OnErr, MatchOption, MatchResult};
ghost use Rattle.tg_pbtable.specs.Emitted.{LiesIn};
ghost use Rattle.tg_pbtable.specs.Faults.{HasCause};
ghost use Rattle.tg_pbtable.specs.Message.{IsOfWire};
ghost use Rattle.tg_pbtable.specs.Values.{bytes_at, later};
ghost use Rattle.tg_pbtable.specs.declared.table.Order.TheVariants.{Ascending};
ghost use Rattle.tg_pbtable.specs.declared.fault.PbFault.{PbFault};
ghost use Rattle.tg_pbtable.specs.Place.{AreInside, placed_bytes};
ghost use Rattle.tg_dagpb.specs.Node.{HasContent, NodeText};
ghost use Rattle.tg_dagpb.specs.Faults.{IsLinkText, HasNodeCause};
ghost use Rattle.tg_dagpb.specs.Cursor.{IsBetween, IsCursor, HasPayloadAt, LieInside, link_of, placed_link};
ghost use Rattle.tg_dagpb.specs.Reading.{GathersLink, IsBadField, IsBadPlace, IsLinkBetween, placed};
ghost use Rattle.tg_dagpb.specs.declared.TheConstants.{LINK};
ghost use Rattle.tg_dagpb.specs.declared.Node.{Node};
ghost use Rattle.tg_dagpb.specs.declared.Link.{Link};

use crate::{LINK, Link, LinkPlaces, LinkSpan, NODE, Node};
use std::alloc::{AllocError, Global};
use tg_bytes::{Bytes, List};
use tg_pbtable::{Field, FieldCursor, Order, PbFault, Place, Value, copied_bytes, field_at};

/// The node that a block spells.
///
/// IPLD specification, DAG-PB, Serial Format; unknown and doubled fields, links on both sides of the data, and fields
/// of a link out of ascending order are refused (this project's own profile). Errors: the first fault of the node's own
/// fields, then that of the first link that is none, with its place in the block, and `OutOfMemory` for want of memory
/// alone.
pub fn decode(alloc: Global, bytes: &[u8]) -> Result<Node, PbFault>
    ensures found { IfOk result (λ node. NodeText node bytes.now) }
    ensures only { (node : Node) → NodeText node bytes.now
        → MatchResult result (λ found. found ≡ node) (λ e. e ≡ PbFault.OutOfMemory) }

    // Each refusal but want of memory comes exactly where its cause holds; memory is taken only for a node.
    ensures cause { IfErr result (λ e. (e ≡ PbFault.OutOfMemory) ⊎ HasNodeCause bytes.now e) }
    ensures given { (fault : PbFault) → HasNodeCause bytes.now fault → result ≡ Err fault }
    // Memory is wanted for the links and the data of a node alone.
    ensures memory { IsErrOf result PbFault.OutOfMemory → (node : Node) × NodeText node bytes.now × HasContent node }
{
    let payload = payload_at(bytes)?;
    Ok(copied(alloc, bytes, payload)?)
}

/// The node of which the data lies at the place, each part copied once. The error is want of memory.
fn copied(alloc: Global, bytes: &[u8], payload: Option<Place>) -> Result<Node, AllocError>
    requires inside { AreInside bytes.now payload }
    requires cursor { IsCursor bytes.now 0 }
    ensures node { (links : Items Link) → IsBetween bytes.now 0 [] links
        → IfOk result (λ node. node ≡ record { links = links; payload = placed_bytes bytes.now payload }) }
    ensures memory { (links : Items Link) → IsBetween bytes.now 0 [] links
        → OnErr result (HasContent (record { links = links; payload = placed_bytes bytes.now payload })) }
{
    Ok(Node {
        links: copied_links(alloc, bytes)?,
        payload: copied_bytes(alloc, bytes, payload)?,
    })
}

/// The links of a node, in order. The error is want of memory.
fn copied_links(alloc: Global, bytes: &[u8]) -> Result<List<Link>, AllocError>
    requires { IsCursor bytes.now 0 }
    ensures links { (links : Items Link) → IsBetween bytes.now 0 [] links → IfOk result (λ found. found ≡ links) }
    ensures memory { (links : Items Link) → IsBetween bytes.now 0 [] links → OnErr result (0 < length links) }
{
    let mut links = List::new(alloc);
    let mut at = 0;
    while let Some((places, next)) = link_places_at(bytes, at) {
        links.push(copied_link(alloc, bytes, places)?)?;
        at = next;
    }
    Ok(links)
}

/// The link whose parts lie at the places. The error is want of memory.
fn copied_link(alloc: Global, bytes: &[u8], places: LinkPlaces) -> Result<Link, AllocError>
    requires { LieInside bytes.now places }
    ensures { IfOk result (λ link. link ≡ placed_link bytes.now places) }
{
    Ok(Link {
        hash: Bytes::of(alloc, places.hash.bytes_in(bytes))?,
        name: copied_bytes(alloc, bytes, places.name)?,
        tsize: places.tsize,
    })
}

/// Whether the bytes are a node's, with the answer of `decode`; it takes no memory.
///
/// IPLD specification, DAG-PB, Serial Format. Errors: those of `decode` in its order, but for want of memory.
pub fn check(bytes: &[u8]) -> Result<(), PbFault>
    ensures found { OnOk result ((node : Node) × NodeText node bytes.now) }
    // A cursor over the links begins at the front.
    ensures cursor { OnOk result (IsCursor bytes.now 0) }
    ensures only { (node : Node) → NodeText node bytes.now → result ≡ Ok tt }

    // It refuses exactly where a cause holds, and with the fault of that cause.
    ensures cause { IfErr result (λ e. HasNodeCause bytes.now e) }
    ensures given { (fault : PbFault) → HasNodeCause bytes.now fault → result ≡ Err fault }
{
    payload_at(bytes)?;
    Ok(())
}

/// The place of the data of the node that a block spells, or none where it has no data; it takes no memory.
///
/// IPLD specification, DAG-PB, Serial Format. Errors: those of `decode` in its order, but for want of memory.
pub fn payload_at(bytes: &[u8]) -> Result<Option<Place>, PbFault>
    ensures found { IfOk result (λ place. HasPayloadAt bytes.now place) }
    ensures inside { IfOk result (λ place. AreInside bytes.now place) }
    // A cursor over the links begins at the front.
    ensures cursor { OnOk result (IsCursor bytes.now 0) }
    ensures only { (node : Node) → NodeText node bytes.now
        → MatchResult result (λ place. placed_bytes bytes.now place ≡ node.payload) (λ _. ⊥) }

    // It refuses exactly where a cause holds, and with the fault of that cause.
    ensures cause { IfErr result (λ e. HasNodeCause bytes.now e) }
    ensures given { (fault : PbFault) → HasNodeCause bytes.now fault → result ≡ Err fault }
{
    tg_pbtable::laws::table_laws();
    let mut bad = None;
    let mut payload = None;
    let mut cursor = FieldCursor::new();
    while let Some(field) = cursor.next(NODE, Order::Runs, bytes)? {
        payload = with_payload(payload, &field);
        if bad.is_none() {
            bad = link_fault(bytes, &field);
        }
    }
    match bad {
        Some(fault) => Err(fault),
        None => Ok(payload),
    }
}

/// The place of the data after one field more.
fn with_payload(payload: Option<Place>, field: &Field) -> Option<Place>
    ensures bytes { (text : Items ℕ) → placed_bytes text result
        ≡ later (placed_bytes text payload) (bytes_at text 1 (field.now ∷ [])) }
    ensures inside { (text : Items ℕ) → LiesIn text field.now.value → AreInside text payload → AreInside text result }
{
    match field.value {
        Value::Place { start, end } if field.number == 1 => Some(Place { start, end }),
        _ => payload,
    }
}

/// Why a field that has to be a link is none.
fn link_fault(bytes: &[u8], field: &Field) -> Option<PbFault>
    requires lies { LiesIn bytes.now field.now.value }
    requires wire { IsOfWire field.now.wire field.now.value }
    ensures { MatchOption result (All IsLinkText (bytes_at bytes.now 2 (field.now ∷ [])))
        (λ e. IsBadField bytes.now field.now e) }
{
    let (start, end) = link_place(field)?;
    link_between(bytes, start, end).err()
}

/// The first link at a cursor or behind it, and the cursor behind that link; none where no link is left.
///
/// A cursor is 0 or what an earlier call gave. It takes no memory, and at most one field besides the link is read, the
/// data, so that a step takes the same time however large the block is.
pub fn link_at(bytes: &[u8], at: usize) -> Option<(LinkSpan<'_>, usize)>
    requires { IsCursor bytes.now at }
    ensures next { (behind ahead : Items Link) → IsBetween bytes.now at behind ahead
        → MatchOption result (ahead ≡ []) (λ found. (more : Items Link) × (ahead ≡ link_of found.0 ∷ more)
        × IsBetween bytes.now found.1 (behind ++ link_of found.0 ∷ []) more) }
    ensures cursor { IfSome result (λ found. IsCursor bytes.now found.1) }
    ensures forward { IfSome result (λ found. (at < found.1) × (found.1 ≤ length bytes.now)) }
{
    let (places, next) = link_places_at(bytes, at)?;
    Some((span_of(bytes, places), next))
}

/// The places of the parts of the first link at a cursor or behind it, as `link_at` finds it, and the cursor behind
/// that link; none where no link is left.
pub fn link_places_at(bytes: &[u8], at: usize) -> Option<(LinkPlaces, usize)>
    requires { IsCursor bytes.now at }
    ensures next { (behind ahead : Items Link) → IsBetween bytes.now at behind ahead
        → MatchOption result (ahead ≡ []) (λ found. (more : Items Link) × (ahead ≡ placed_link bytes.now found.0 ∷ more)
        × IsBetween bytes.now found.1 (behind ++ placed_link bytes.now found.0 ∷ []) more) }
    ensures inside { IfSome result (λ found. LieInside bytes.now found.0) }
    ensures cursor { IfSome result (λ found. IsCursor bytes.now found.1) }
    ensures forward { IfSome result (λ found. (at < found.1) × (found.1 ≤ length bytes.now)) }
{
    tg_pbtable::laws::table_laws();
    let mut from = at;
    while let Ok((field, next)) = field_at(NODE, bytes, from) {
        if let Some((start, end)) = link_place(&field) {
            let places = link_between(bytes, start, end).ok()?;
            return Some((places, next));
        }
        from = next;
    }
    None
}

/// The link whose parts lie at the places.
fn span_of(bytes: &[u8], places: LinkPlaces) -> LinkSpan<'_>
    requires { LieInside bytes.now places }
    ensures { link_of result ≡ placed_link bytes.now places }
{
    let name = match places.name {
        Some(name) => Some(name.bytes_in(bytes)),
        None => None,
    };
    LinkSpan {
        hash: places.hash.bytes_in(bytes),
        name,
        tsize: places.tsize,
    }
}

/// The place of the link that a field of a node is, where it is one.
fn link_place(field: &Field) -> Option<(usize, usize)>
    requires { IsOfWire field.now.wire field.now.value }
    ensures { MatchOption result ((text : Items ℕ) → bytes_at text 2 (field.now ∷ []) ≡ [])
        (λ place. field.now ≡ placed place.0 place.1) }
{
    match field.value {
        Value::Place { start, end } if field.number == 2 => Some((start, end)),
        _ => None,
    }
}

/// The link that the bytes from `start` up to and without `end` spell; the place of a fault is one of the block.
fn link_between(bytes: &[u8], start: usize, end: usize) -> Result<LinkPlaces, PbFault>
    requires rises { start ≤ end }
    requires inside { end ≤ length bytes.now }
    ensures { MatchResult result (λ places. IsLinkBetween bytes.now start end places)
        (λ e. IsBadPlace bytes.now start end e) }
{
    tg_pbtable::laws::table_laws();
    match link_in(bytes, start, end) {
        Ok(places) => Ok(places),
        Err(fault) => Err(fault.moved_by(start)),
    }
}

/// The link that these bytes spell; the place of a fault is one of these bytes.
fn link_in(bytes: &[u8], start: usize, end: usize) -> Result<LinkPlaces, PbFault>
    requires rises { start ≤ end }
    requires inside { end ≤ length bytes.now }
    ensures { MatchResult result (λ places. IsLinkBetween bytes.now start end places)
        (λ e. HasCause LINK.now Ascending (slice_range bytes.now start end) e) }
{
    tg_pbtable::laws::table_laws();
    let mut places = LinkPlaces {
        hash: Place { start, end: start },
        name: None,
        tsize: None,
    };
    let mut cursor = FieldCursor::new();
    while let Some(field) = cursor.next(LINK, Order::Ascending, &bytes[start..end])? {
        places = with_part(places, bytes, start, end, &field);
    }
    Ok(places)
}

/// The link with the value of a field of these bytes.
fn with_part(
    places: LinkPlaces,
    bytes: &[u8],
    start: usize,
    end: usize,
    field: &Field,
) -> LinkPlaces
    requires rises { start ≤ end }
    requires inside { end ≤ length bytes.now }
    requires lies { LiesIn (slice_range bytes.now start end) field.now.value }
    ensures gathers { GathersLink (slice_range bytes.now start end) (field.now ∷ []) (placed_link bytes.now places)
        (placed_link bytes.now result) }
    ensures inside { LieInside bytes.now places → LieInside bytes.now result }
{
    tg_pbtable::laws::place_laws();
    let mut new = places;
    match field.value {
        Value::Number(value) => {
            if field.number == 3 {
                new.tsize = Some(value);
            }
        }
        Value::Place {
            start: from,
            end: to,
        } => {
            let place = Place {
                start: start + from,
                end: start + to,
            };
            match field.number {
                1 => new.hash = place,
                2 => new.name = Some(place),
                _ => {}
            }
        }
    }
    new
}
