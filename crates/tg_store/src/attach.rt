//! A pack read through and indexed.
ghost use Rattle.std.specs.Prelude.{◌≡◌, ◌≤◌, ◌<◌, ◌++◌, ◌∷◌, [], ℕ, List, Some, length, take, IfOk, MatchResult};
ghost use Rattle.tg_bytes.specs.Told.{IsNothing};
ghost use Rattle.tg_car.specs.History.{given_by};
ghost use Rattle.tg_files.specs.Packs.{PackQuiet, SameContent, pack_step, rest_at};
ghost use Rattle.tg_store.specs.Attaching.{HasPackCause, HasStopCause, IsAlong, IsFound, IsNotNoted, IsReadTo};
ghost use Rattle.tg_store.specs.Attaching.{IsRefusal, Noted};

use crate::fault::PackFault;
use crate::key::Key;
use crate::pack_store::UNFINISHED_HEADER;
use crate::place::Place;
use indexmap::IndexMap;
use std::alloc::Global;
use tg_bytes::zeros;
use tg_car::{CarReader, Event, Section};
use tg_cid::MAX_BLOCK_LEN;
use tg_files::Pack;

// How many bytes are read at once at most.
const PIECE_LEN: usize = 65_536;

/// What is found in a pack: where its blocks lie, and how many bytes it has.
#[derive(Drop)]
pub(crate) struct Found {
    pub(crate) places: IndexMap<Key, Place>,
    pub(crate) end: u64,
}

/// A pack that is read through: the reader of its CAR, what was found, and how far it was read.
#[derive(Drop)]
struct Indexing {
    reader: CarReader,
    found: Found,
}

/// Reads the whole pack, checks each block and finds where the first one under each CID lies.
pub(crate) fn scan<P: Pack>(alloc: Global, pack: &mut P) -> Result<Found, PackFault>
    ensures same { SameContent (pack_step P.pack pack.old pack.new) }
    ensures found { MatchResult result
        (λ found. PackQuiet (pack_step P.pack pack.old pack.new)
        × IsFound (P.pack.content pack.old) found.places.entries found.end)
        (λ fault. IsRefusal (pack_step P.pack pack.old pack.new) fault) }
{
    let Ok(mut room) = zeros(alloc, PIECE_LEN) else {
        return Err(PackFault::OutOfMemory);
    };
    let buffer = room.as_mut_slice();
    let mut indexing = Indexing::new(alloc);
    for _ in 0..u64::MAX {
        let count = indexing.read_on(pack, buffer)?;
        if count == 0 {
            return indexing.close();
        }
    }
    Err(PackFault::OutOfMemory)
}

impl Indexing {
    /// Before the first byte.
    fn new(alloc: Global) -> Indexing
        ensures { IsAlong result.reader result.found.places.entries [] × (result.found.end ≡ 0) }
    {
        Indexing {
            reader: CarReader::new(alloc, MAX_BLOCK_LEN as u64),
            found: Found {
                places: IndexMap::new(alloc),
                end: 0,
            },
        }
    }

    /// Reads a piece of the pack, and says how many bytes it has: none at the pack's end.
    fn read_on<P: Pack>(&mut self, pack: &mut P, buffer: &mut [u8]) -> Result<usize, PackFault>
        requires room { 0 < length buffer.old }
        requires before { IsReadTo self.old.reader self.old.found.places.entries
            (P.pack.content pack.old) self.old.found.end }
        ensures same { SameContent (pack_step P.pack pack.old pack.new) }
        ensures after { MatchResult result
            (λ count. PackQuiet (pack_step P.pack pack.old pack.new)
            × IsReadTo self.new.reader self.new.found.places.entries (P.pack.content pack.old) self.new.found.end
            × (count ≡ 0 → IsNothing (rest_at (P.pack.content pack.old) self.new.found.end)))
            (λ fault. IsRefusal (pack_step P.pack pack.old pack.new) fault) }
        ensures buffer { length buffer.new ≡ length buffer.old }
    {
        let Ok(count) = pack.read_at(self.found.end, buffer) else {
            return Err(PackFault::Failed);
        };
        if count == 0 {
            return Ok(0);
        }
        let Some(end) = self.found.end.checked_add(count as u64) else {
            return Err(PackFault::OutOfMemory);
        };
        self.take(&buffer[..count])?;
        self.found.end = end;
        Ok(count)
    }

    /// Takes a whole piece.
    fn take(&mut self, piece: &[u8]) -> Result<(), PackFault>
        ensures along { (fed : List ℕ) → IsAlong self.old.reader self.old.found.places.entries fed → MatchResult result
            (λ _. IsAlong self.new.reader self.new.found.places.entries (fed ++ piece.now))
            (λ fault. HasStopCause (fed ++ piece.now) fault) }
        ensures end { self.new.found.end ≡ self.old.found.end }
    {
        let mut rest = piece;
        while !rest.is_empty() {
            let taken = self.step(rest)?;
            rest = &rest[taken..];
        }
        Ok(())
    }

    /// Takes bytes of the piece up to the end of the header or of a section, and says how many.
    fn step(&mut self, piece: &[u8]) -> Result<usize, PackFault>
        requires { 0 < length piece.now }
        ensures along { (fed : List ℕ) → IsAlong self.old.reader self.old.found.places.entries fed → MatchResult result
            (λ taken. IsAlong self.new.reader self.new.found.places.entries (fed ++ take taken piece.now))
            (λ fault. HasStopCause (fed ++ piece.now) fault) }
        ensures taken { IfOk result (λ taken. (taken ≤ length piece.now) × (0 < taken)) }
        ensures end { self.new.found.end ≡ self.old.found.end }
    {
        tg_varint::laws::spelling_laws();
        tg_car::laws::car_laws();
        tg_cid::laws::one_spelling();
        let (taken, event) = self.reader.feed(piece)?;
        note(&mut self.found.places, event)?;
        Ok(taken)
    }

    /// What was found, once the pack was read to its end.
    fn close(self) -> Result<Found, PackFault>
        ensures { (fed : List ℕ) → IsAlong self.reader self.found.places.entries fed → length fed ≡ self.found.end
            → MatchResult result
            (λ found. IsFound (Some fed) found.places.entries found.end) (λ fault. HasPackCause fed fault) }
    {
        tg_varint::laws::spelling_laws();
        tg_car::laws::car_laws();
        let mut reader = self.reader;
        reader.end()?;
        Ok(self.found)
    }
}

/// Notes the place of a section's block, where none stands under its CID yet.
fn note(places: &mut IndexMap<Key, Place>, event: Event) -> Result<(), PackFault>
    ensures { MatchResult result (λ _. Noted (given_by event) places.old.entries places.new.entries)
        (λ fault. IsNotNoted event fault) }
{
    match event {
        Event::Need => Ok(()),
        Event::Header(header) => {
            if header.as_slice() == UNFINISHED_HEADER.as_slice() {
                return Err(PackFault::Unfinished);
            }
            Ok(())
        }
        Event::Section { at, size, section } => note_section(places, at, size, &section),
    }
}

/// Notes the place of the section's block, where none stands under its CID yet; of an identity CID none is noted.
fn note_section(
    places: &mut IndexMap<Key, Place>,
    at: u64,
    size: u64,
    section: &Section,
) -> Result<(), PackFault>
    ensures { MatchResult result (λ _. Noted (Event.Section at size section.now
        ∷ []) places.old.entries places.new.entries)
        (λ fault. IsNotNoted (Event.Section at size section.now) fault) }
{
    let block = section.block.as_slice();
    if !section.cid.holds(block) {
        return Err(PackFault::BadDigest { at });
    }
    let Some(key) = Key::of(&section.cid) else {
        // The block of an identity CID is its digest.
        return Ok(());
    };
    if places.contains_key(&key) {
        return Ok(());
    }
    let length = block.len() as u64;
    let place = Place {
        offset: at.saturating_add(size).saturating_sub(length),
        size: length,
    };
    match places.insert(key, place) {
        Ok(_) => Ok(()),
        Err(_) => Err(PackFault::OutOfMemory),
    }
}
