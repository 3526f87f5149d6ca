//! A CAR read in pieces of any lengths.
ghost use Rattle.std.specs.Prelude.{◌≡◌, ℕ, ◌<◌, ◌≤◌, true, false, List, ◌++◌, length, Option, Some, None, IfOk};
ghost use Rattle.std.specs.Prelude.{IfSome, OnOk, OnErr, MatchResult};
ghost use Rattle.tg_car.specs.Fronts.{IsInHeader};
ghost use Rattle.tg_car.specs.HeaderState.{FollowsHeader};
ghost use Rattle.tg_car.specs.History.{History, IsGivenOf, nothing, with_end, with_feed};
ghost use Rattle.tg_car.specs.State.{IsAtItsEnd, StandsFor};
ghost use Rattle.tg_car.specs.Steps.{IsTaken, Steps, Stops, TakesHeader};

use crate::event::Event;
use crate::fault::CarFault;
use crate::header_state::HeaderState;
use crate::laws;
use crate::part::{Part, PartFault};
use std::alloc::{AllocError, Global};
use std::marker::Model;
use std::mem::replace;
use tg_bytes::Bytes;

/// A reader of a CAR that is fed its bytes in pieces of any lengths. It gives the header and each section in the call
/// that brings its last byte, and refuses bytes that are no CAR at the first one with which no CAR goes on. After a
/// refusal each call gives that refusal.
///
/// CARv1 specification. It holds the bytes of the header or of one section at most, and a block in the room that its
/// length asks for, which is taken once its length and CID are whole and moved out with the section.
#[derive(Drop)]
pub struct CarReader {
    alloc: Global,
    limit: u64,
    refused: Option<CarFault>,
    place: u64,
    in_header: bool,
    header: HeaderState,
    text: Vec<u8>,
    part: Part,
}

impl Model for CarReader {
    ghost use Rattle.tg_car.specs.State.{ReaderState};
    ghost use Rattle.tg_car.specs.Filling.{IsPart, came_of};

    ghost Value = { ReaderState };

    ghost view = { λ r. record {
      limit = r.limit;
      refused = r.refused;
      place = r.place;
      in_header = r.in_header;
      header = r.header;
      text = r.text.items;
      came = came_of r.part;
    } };

    ghost invariant = { λ r. IsPart r.part };
}

/// Bytes of a piece that were taken into a header.
#[derive(Clone, Copy)]
struct Followed {
    taken: usize,
    state: HeaderState,
    whole: bool,
}

impl CarReader {
    /// A reader of a CAR of which no block has more than `limit` bytes. It takes no memory until a block comes.
    pub fn new(alloc: Global, limit: u64) -> CarReader
        ensures stands { StandsFor result nothing }
        ensures limit { result.limit ≡ limit }
    {
        laws::text_laws();
        CarReader {
            alloc,
            limit,
            refused: None,
            place: 0,
            in_header: true,
            header: HeaderState::new(),
            text: Vec::new(alloc),
            part: Part::new(alloc),
        }
    }

    /// Takes bytes of the piece up to the end of the header or of a section, and says how many and what they completed.
    ///
    /// CARv1 specification, Header and Data. Errors: `BadHeader` and `BadSection` at the first byte with which no CAR
    /// goes on, `BlockLimit` at the last byte of the CID of a section whose block is above the limit, and `OutOfMemory`
    /// where no room is found for bytes of the header, or for a block at the last byte of its CID. What the bytes
    /// before that byte complete was given before. Nothing of the piece is taken then, and each further call gives the
    /// same error.
    pub fn feed(&mut self, piece: &[u8]) -> Result<(usize, Event), CarFault>
        ensures within { IfOk result (λ found. found.0 ≤ length piece.now) }
        ensures moves { IfOk result (λ found. 0 < length piece.now → 0 < found.0) }
        ensures need { IfOk result (λ found. found.1 ≡ Event.Need → found.0 ≡ length piece.now) }
        // No byte is taken behind the last one of the header or of a section that is given.
        ensures at_end { IfOk result (λ found. IsAtItsEnd found.1 self.old.came self.new.came) }
        // Each history that the reader stood for, with this call added, is one that it stands for.
        ensures stands { (h : History) → StandsFor self.old h
            → StandsFor self.new (with_feed h piece.now result) }
        // After a refusal each call gives that refusal and changes nothing.
        ensures again { (fault : CarFault) → self.old.refused ≡ Some fault
            → (result ≡ Err fault) × (self.new ≡ self.old) }
        ensures kept { MatchResult result (λ _. (self.old.refused ≡ None) × (self.new.refused ≡ None))
            (λ fault. self.new.refused ≡ Some fault) }
        ensures limit { self.new.limit ≡ self.old.limit }
    {
        if let Some(fault) = self.refused {
            return Err(fault);
        }
        match self.advance(piece) {
            Ok(found) => Ok(found),
            Err(fault) => {
                self.refused = Some(fault);
                Err(fault)
            }
        }
    }

    /// Says that no byte is to come.
    ///
    /// CARv1 specification. Errors: `Torn` where the bytes end inside the header or a section, and a refusal of before.
    pub fn end(&mut self) -> Result<(), CarFault>
        // What was fed is then a CAR, and its header and sections were given.
        ensures whole { (h : History) → StandsFor self.old h → OnOk result (IsGivenOf h.fed h.given) }
        ensures stands { (h : History) → StandsFor self.old h → StandsFor self.new (with_end h result) }
        // After a refusal each call gives that refusal and changes nothing.
        ensures again { (fault : CarFault) → self.old.refused ≡ Some fault
            → (result ≡ Err fault) × (self.new ≡ self.old) }
        ensures kept { MatchResult result (λ _. (self.old.refused ≡ None) × (self.new ≡ self.old))
            (λ fault. self.new.refused ≡ Some fault) }
        ensures limit { self.new.limit ≡ self.old.limit }
    {
        if let Some(fault) = self.refused {
            return Err(fault);
        }
        let at = if self.in_header {
            0
        } else if self.part.is_empty() {
            return Ok(());
        } else {
            self.place
        };
        let fault = CarFault::Torn { at };
        self.refused = Some(fault);
        Err(fault)
    }

    /// The same as `feed` of a reader that refused nothing, but that no refusal is kept.
    fn advance(&mut self, piece: &[u8]) -> Result<(usize, Event), CarFault>
        ensures { MatchResult result (λ found. Steps self.old self.new piece.now found.0 found.1)
            (λ fault. Stops self.old self.new piece.now fault) }
    {
        if self.in_header {
            self.take_header(piece)
        } else {
            self.take_section(piece)
        }
    }

    /// Takes bytes of the piece into the header.
    fn take_header(&mut self, piece: &[u8]) -> Result<(usize, Event), CarFault>
        requires { self.old.in_header ≡ true }
        ensures { MatchResult result (λ found. Steps self.old self.new piece.now found.0 found.1)
            (λ fault. Stops self.old self.new piece.now fault) }
    {
        laws::text_laws();
        let Some(found) = follow(self.header, piece) else {
            return Err(CarFault::BadHeader { at: 0 });
        };
        keep(&mut self.text, &piece[..found.taken])?;
        self.header = found.state;
        self.place = self.place.saturating_add(found.taken as u64);
        if found.whole {
            self.in_header = false;
            let text = replace(&mut self.text, Vec::new(self.alloc));
            return Ok((found.taken, Event::Header(Bytes::from(text))));
        }
        Ok((found.taken, Event::Need))
    }

    /// Takes bytes of the piece into the section at hand.
    fn take_section(&mut self, piece: &[u8]) -> Result<(usize, Event), CarFault>
        requires { self.old.in_header ≡ false }
        ensures { MatchResult result (λ found. Steps self.old self.new piece.now found.0 found.1)
            (λ fault. Stops self.old self.new piece.now fault) }
    {
        laws::text_laws();
        let came = self.part.len();
        match self.part.take(self.alloc, self.limit, piece) {
            Ok((taken, None)) => Ok((taken, Event::Need)),
            Ok((taken, Some(section))) => {
                let at = self.place;
                let size = came.saturating_add(taken as u64);
                self.place = at.saturating_add(size);
                Ok((taken, Event::Section { at, size, section }))
            }
            Err(PartFault::Bad) => Err(CarFault::BadSection { at: self.place }),
            Err(PartFault::AboveLimit) => Err(CarFault::BlockLimit {
                at: self.place,
                number: self.limit,
            }),
            Err(PartFault::OutOfMemory) => Err(CarFault::OutOfMemory),
        }
    }
}

/// Takes bytes of the piece into a header up to its end, or none where no header goes on so.
fn follow(mut state: HeaderState, piece: &[u8]) -> Option<Followed>
    ensures taken { IfSome result (λ found. IsTaken found.whole piece.now found.taken) }
    ensures bytes { (bytes : List ℕ) → FollowsHeader state bytes → IsInHeader bytes
        → TakesHeader bytes piece.now result }
{
    for (at, byte) in piece.iter().enumerate() {
        state = state.step(*byte)?;
        if state.is_whole() {
            return Some(Followed {
                taken: at + 1,
                state,
                whole: true,
            });
        }
    }
    Some(Followed {
        taken: piece.len(),
        state,
        whole: false,
    })
}

/// Adds the bytes at the end. Where there are none, no memory is wanted.
fn keep(text: &mut Vec<u8>, bytes: &[u8]) -> Result<(), AllocError>
    ensures items { OnOk result (text.new.items ≡ text.old.items ++ bytes.now) }
    ensures some { OnErr result (0 < length bytes.now) }
{
    if bytes.is_empty() {
        return Ok(());
    }
    text.extend_from_slice(bytes)
}
