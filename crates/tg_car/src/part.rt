//! The section at hand: what of it came.
ghost use Rattle.std.specs.Prelude.{◌≡◌, ◌↔◌, ◌<◌, ◌≤◌, [], length, Option, Some, None, IsTrue, All, vec_capacity};
ghost use Rattle.std.specs.Prelude.{OnOk, OnErr, MatchResult};
ghost use Rattle.tg_car.specs.Faults.{shown};
ghost use Rattle.tg_car.specs.Filling.{IsPart, StopsPart, Takes, TakesBlock, TakesHead, came_of};
ghost use Rattle.tg_car.specs.Heads.{HeadText};

use crate::head::{Declared, Front, fill};
use crate::laws;
use crate::room::Room;
use crate::section::Section;
use std::alloc::{AllocError, Global};
use std::mem::replace;
use tg_bytes::Bytes;

/// Why a section doesn't go on.
#[derive(Clone, Copy)]
pub(crate) enum PartFault {
    /// No section goes on so.
    Bad,
    /// It declares a block above the limit.
    AboveLimit,
    /// No memory was found for its block.
    OutOfMemory,
}

/// What came of a section: its length and CID, what they declare once they are whole, and its block.
#[derive(Drop)]
pub(crate) struct Part {
    head: Room,
    declared: Option<Declared>,
    block: Vec<u8>,
}

impl Part {
    /// No byte came.
    pub(crate) fn new(alloc: Global) -> Part
        ensures part { IsPart result }
        ensures nothing { came_of result ≡ [] }
    {
        laws::nothing_in_head();
        Part {
            head: Room::new(),
            declared: None,
            block: Vec::new(alloc),
        }
    }

    /// Whether no byte came.
    pub(crate) fn is_empty(&self) -> bool
        requires { IsPart self.now }
        ensures { IsTrue result ↔ (came_of self.now ≡ []) }
    {
        self.head.as_slice().is_empty()
    }

    /// How many bytes came, which stands still at 2 ^ 64 - 1.
    pub(crate) fn len(&self) -> u64
        ensures { result ≡ shown (length (came_of self.now)) }
    {
        let head = self.head.as_slice().len() as u64;
        head.saturating_add(self.block.len() as u64)
    }

    /// Takes bytes of the piece up to the section's end, and says how many and the section that is whole with them.
    /// Room for its block is taken once its length and CID are whole, and moved out with the section.
    pub(crate) fn take(
        &mut self,
        alloc: Global,
        limit: u64,
        piece: &[u8],
    ) -> Result<(usize, Option<Section>), PartFault>
        requires { IsPart self.old }
        ensures part { IsPart self.new }
        ensures took { MatchResult result (λ found. Takes limit (came_of self.old)
            (came_of self.new) piece.now found.0 found.1)
            (λ fault. StopsPart limit (came_of self.old) piece.now fault) }
    {
        laws::text_laws();
        if let Some(declared) = self.declared {
            return Ok(self.take_block(alloc, declared, piece));
        }
        let (taken, declared) = self.take_head(limit, piece)?;
        let Some(declared) = declared else {
            return Ok((taken, None));
        };
        let (more, section) = self.take_block(alloc, declared, &piece[taken..]);
        Ok((taken + more, section))
    }

    /// Takes bytes of the piece into the length and the CID, and says how many and what they declare once they are
    /// whole.
    fn take_head(
        &mut self,
        limit: u64,
        piece: &[u8],
    ) -> Result<(usize, Option<Declared>), PartFault>
        requires part { IsPart self.old }
        requires open { self.old.declared ≡ None }
        ensures { MatchResult result (λ found. TakesHead limit self.old self.new piece.now found.0 found.1)
            (λ fault. IsPart self.new × StopsPart limit self.old.head piece.now fault) }
    {
        laws::text_laws();
        let (taken, front) = fill(&mut self.head, piece);
        let declared = match front {
            Front::Open => return Ok((taken, None)),
            Front::Whole(declared) => declared,
            Front::Broken => {
                self.head.clear();
                return Err(PartFault::Bad);
            }
        };
        if declared.number > limit {
            self.head.clear();
            return Err(PartFault::AboveLimit);
        }
        match take_room(&mut self.block, declared.number) {
            Ok(()) => Ok((taken, Some(declared))),
            Err(_) => {
                self.head.clear();
                Err(PartFault::OutOfMemory)
            }
        }
    }

    /// Takes bytes of the piece into the block up to its end, and says how many and the section that is whole with
    /// them. The block has its room, so no memory is wanted.
    fn take_block(
        &mut self,
        alloc: Global,
        declared: Declared,
        piece: &[u8],
    ) -> (usize, Option<Section>)
        requires head { HeadText declared.cid declared.number self.old.head }
        requires block { length self.old.block.items ≤ declared.number }
        requires bytes { All (λ b. b < 256) self.old.block.items }
        requires room { declared.number ≤ vec_capacity self.old.block }
        ensures part { IsPart self.new }
        ensures took { TakesBlock declared self.old self.new piece.now result.0 result.1 }
    {
        laws::nothing_in_head();
        let left = declared.number - self.block.len() as u64;
        let taken = left.min(piece.len() as u64) as usize;
        if self.block.extend_from_slice(&piece[..taken]).is_err() {
            unreachable!()
        }
        if (taken as u64) < left {
            self.declared = Some(declared);
            return (taken, None);
        }
        let block = replace(&mut self.block, Vec::new(alloc));
        self.head.clear();
        self.declared = None;
        let section = Section {
            cid: declared.cid,
            block: Bytes::from(block),
        };
        (taken, Some(section))
    }
}

/// Takes room for so many bytes in an empty list.
fn take_room(block: &mut Vec<u8>, number: u64) -> Result<(), AllocError>
    requires { block.old.items ≡ [] }
    ensures items { block.new.items ≡ [] }
    ensures room { OnOk result (number ≤ vec_capacity block.new) }
    ensures some { OnErr result (0 < number) }
{
    block.reserve_exact(number as usize)
}
