//! A CAR on an input, verified.
ghost use Rattle.std.specs.Prelude.{◌≡◌, ◌++◌, ◌<◌, ◌≤◌, [], ℕ, List as Items, None, Some, length};
ghost use Rattle.tg_client.specs.Body.{IsBody, IsVerified};
ghost use Rattle.tg_client.specs.Ends.{HasStreamCause, IsAcceptedElse, IsRefusedElse, Verifies};
ghost use Rattle.tg_car.specs.History.{GoesOn};
ghost use Rattle.tg_client.specs.Received.{HasHeader, HasReceived, IsCarOf};
ghost use Rattle.tg_client.specs.Telling.{HasTold, telling};
ghost use Rattle.tg_model.specs.Answer.{answer};
ghost use Rattle.tg_model.specs.Dag.{Dag, Section, root_cid};
ghost use Rattle.tg_model.specs.Fits.{Fits, HasOneBlockEach, IfOnce, IsInProgress};
ghost use Rattle.tg_model.specs.PathWalk.{Spot};
ghost use Rattle.tg_model.specs.Sound.{IsSound};
ghost use Rattle.tg_model.specs.Traversal.{block_list, opened_list};
ghost use Rattle.tg_streams.specs.Streams.{into, through};
ghost use Rattle.tg_verify.specs.Laws.{IsWithinLimits};
ghost use Rattle.tg_verify.specs.State.{count_of};

use crate::body::CarBody;
use crate::fault::ClientFault;
use crate::laws;
use crate::telling::{TellTerminal, Untold};
use std::alloc::Global;
use tg_bytes::zeros;
use tg_model::{Limits, Query};
use tg_streams::{Sink, Source, take_piece};
use tg_verify::Refusal;

/// How many bytes are taken from the input at once, at most.
const PIECE_LEN: usize = 65_536;

/// Verifies that the input is a CAR of what a query asks for, and puts what it says. The query's root alone is trusted:
/// the roots in the CAR's header aren't looked at, and each section is checked, and what it says is put, as soon as its
/// last byte came. No byte of the input is kept but those of a piece and of the section at hand, besides the blocks of
/// files on the way of which links are to come (at most one a level, and 512 levels), of a listing the names and CIDs,
/// of a path its text, and, where each block is sent once, each block. Ok says that the input was read to its end.
///
/// CARv1 specification; Trustless Gateway specification, CAR responses, dag-scope and entity-bytes. Errors, at the
/// first byte where one holds: `Refused` with a refusal of the verifier at the header's or a section's last byte, with
/// a `Limit` of kind `Received` where more bytes come than may, with `Extra` behind the last wanted section, with a
/// `Limit` of kind `Block` where a section declares too large a block, and with `Truncated` where the input ends and a
/// block is wanted, or the header isn't whole; `BadCar` where no CAR goes on so; `InputFault`; and `OutOfMemory`. What
/// was put before stays.
pub fn verify_car<I: Source, S: Sink>(
    alloc: Global,
    query: &Query,
    limits: Limits,
    input: &mut I,
    out: &mut S,
) -> Result<(), ClientFault>
    // What was heard and put, how it ended, and what that says of each sound DAG with the query's root.
    ensures verifies { Verifies query.now limits (through I.source input.old input.new) (into S.sink out.old out.new) result }
    ensures cause { HasStreamCause (through I.source input.old input.new) (into S.sink out.old out.new) result }

    // Of an input that tells its bytes, but for counted faults and want of memory: the CAR of a sound DAG's own
    // traversal, with one block under each CID where each is sent once, is accepted, and so is one whose sections fit.
    ensures own { (d : Dag) (bytes text : Items ℕ) → I.source.left input.old ≡ Some bytes
        → IsSound d → root_cid d ≡ query.now.root → answer query.now d ≡ Some text
        → IfOnce query.now.dups (HasOneBlockEach (opened_list query.now d))
        → IsCarOf bytes (block_list query.now d)
        → IsWithinLimits query.now limits d → length bytes ≤ limits.received → IsAcceptedElse result }
    ensures fitting { (d : Dag) (sections : Items Section) (bytes text : Items ℕ)
        → I.source.left input.old ≡ Some bytes
        → Fits d query.now sections text → IsCarOf bytes sections
        → IsWithinLimits query.now limits d → length bytes ≤ limits.received → IsAcceptedElse result }
    // One that ends before its header is whole is truncated with the root, and one that ends before the last section
    // with the wanted CID; one that goes on behind the last has something extra.
    ensures headless { (bytes : Items ℕ) → I.source.left input.old ≡ Some bytes → GoesOn limits.block bytes []
        → length bytes ≤ limits.received → IsRefusedElse (Refusal.Truncated query.now.root 0) result }
    ensures cut { (d : Dag) (sections : Items Section) (bytes : Items ℕ) (wanted : Spot)
        → I.source.left input.old ≡ Some bytes
        → IsInProgress d query.now sections wanted → HasReceived limits.block bytes sections
        → HasHeader limits.block bytes
        → IsWithinLimits query.now limits d → length bytes ≤ limits.received
        → IsRefusedElse (Refusal.Truncated wanted.cid (count_of sections)) result }
    ensures surplus { (d : Dag) (sections : Items Section) (car more text : Items ℕ)
        → I.source.left input.old ≡ Some (car ++ more)
        → Fits d query.now sections text → IsCarOf car sections → 0 < length more
        → IsWithinLimits query.now limits d → length (car ++ more) ≤ limits.received
        → IsRefusedElse (Refusal.Extra (count_of sections)) result }
{
    verify_car_telling(alloc, query, limits, input, out, &Untold)
}

/// Verifies it so, and tells out what the query's path leads to as soon as the terminal's section was taken.
///
/// Errors: those of `verify_car`. CARv1 specification; Trustless Gateway specification, CAR responses; Path Gateway
/// specification, Path Resolution.
pub fn verify_car_telling<I: Source, S: Sink, T: TellTerminal<S>>(
    alloc: Global,
    query: &Query,
    limits: Limits,
    input: &mut I,
    out: &mut S,
    teller: &T,
) -> Result<(), ClientFault>
    // What was heard and put, how it ended, and what that says of each sound DAG with the query's root.
    ensures verifies { Verifies query.now limits (through I.source input.old input.new) (into (telling S.sink T.wrote) out.old out.new) result }
    // What out was told that the path leads to is so in each sound DAG, or a block that came and one of the DAG are different
    // bytes with one SHA-256; and on Ok it was told, but where the block alone is asked for.
    ensures told { T.knows out.old None → HasTold query.now limits (through I.source input.old input.new) (T.knows out.new) result }
    ensures cause { HasStreamCause (through I.source input.old input.new) (into S.sink out.old out.new) result }

    // Of an input that tells its bytes, but for counted faults and want of memory: the CAR of a sound DAG's own
    // traversal, with one block under each CID where each is sent once, is accepted, and so is one whose sections fit.
    ensures own { (d : Dag) (bytes text : Items ℕ) → I.source.left input.old ≡ Some bytes
        → IsSound d → root_cid d ≡ query.now.root → answer query.now d ≡ Some text
        → IfOnce query.now.dups (HasOneBlockEach (opened_list query.now d))
        → IsCarOf bytes (block_list query.now d)
        → IsWithinLimits query.now limits d → length bytes ≤ limits.received → IsAcceptedElse result }
    ensures fitting { (d : Dag) (sections : Items Section) (bytes text : Items ℕ)
        → I.source.left input.old ≡ Some bytes
        → Fits d query.now sections text → IsCarOf bytes sections
        → IsWithinLimits query.now limits d → length bytes ≤ limits.received → IsAcceptedElse result }
    // One that ends before its header is whole is truncated with the root, and one that ends before the last section
    // with the wanted CID; one that goes on behind the last has something extra.
    ensures headless { (bytes : Items ℕ) → I.source.left input.old ≡ Some bytes → GoesOn limits.block bytes []
        → length bytes ≤ limits.received → IsRefusedElse (Refusal.Truncated query.now.root 0) result }
    ensures cut { (d : Dag) (sections : Items Section) (bytes : Items ℕ) (wanted : Spot)
        → I.source.left input.old ≡ Some bytes
        → IsInProgress d query.now sections wanted → HasReceived limits.block bytes sections
        → HasHeader limits.block bytes
        → IsWithinLimits query.now limits d → length bytes ≤ limits.received
        → IsRefusedElse (Refusal.Truncated wanted.cid (count_of sections)) result }
    ensures surplus { (d : Dag) (sections : Items Section) (car more text : Items ℕ)
        → I.source.left input.old ≡ Some (car ++ more)
        → Fits d query.now sections text → IsCarOf car sections → 0 < length more
        → IsWithinLimits query.now limits d → length (car ++ more) ≤ limits.received
        → IsRefusedElse (Refusal.Extra (count_of sections)) result }
{
    tg_car::laws::car_laws();
    tg_model_laws::one_fit();
    tg_model_laws::front_sections();
    tg_model_laws::own_sections();
    tg_model_laws::verified_sections();
    tg_verify::laws::verified_answers();
    tg_verify::laws::own_sections_taken();
    laws::received_sections();
    hear(alloc, query, limits, input, out, teller)
}

/// Does so piece by piece; and nothing is taken behind the last wanted section.
fn hear<I: Source, S: Sink, T: TellTerminal<S>>(
    alloc: Global,
    query: &Query,
    limits: Limits,
    input: &mut I,
    out: &mut S,
    teller: &T,
) -> Result<(), ClientFault>
    ensures verifies { IsVerified query.now limits (through I.source input.old input.new) (into (telling S.sink T.wrote) out.old out.new) result }
    ensures told { T.knows out.old None → HasTold query.now limits (through I.source input.old input.new) (T.knows out.new) result }
    ensures cause { HasStreamCause (through I.source input.old input.new) (into S.sink out.old out.new) result }
{
    tg_varint::laws::spelling_laws();
    tg_verify::laws::verified_answers();
    let mut room = zeros(alloc, PIECE_LEN)?;
    let mut body = CarBody::new(alloc, query, limits)?;
    hear_pieces(&mut body, room.as_mut_slice(), input, out, teller)
}

/// Hands the pieces of the input to a body of which nothing came, through this room.
fn hear_pieces<I: Source, S: Sink, T: TellTerminal<S>>(
    body: &mut CarBody,
    room: &mut [u8],
    input: &mut I,
    out: &mut S,
    teller: &T,
) -> Result<(), ClientFault>
    requires room { 0 < length room.old }
    requires fresh { body.old.verifier.refused ≡ None }
    requires within { body.old.heard ≤ body.old.most }
    requires stands { IsBody body.old [] [] [] }
    ensures verifies { IsVerified body.old.verifier.left.query body.old.verifier.limits
        (through I.source input.old input.new) (into (telling S.sink T.wrote) out.old out.new) result }
    ensures told { T.knows out.old None → HasTold body.old.verifier.left.query body.old.verifier.limits
        (through I.source input.old input.new) (T.knows out.new) result }
    ensures cause { HasStreamCause (through I.source input.old input.new) (into S.sink out.old out.new) result }
{
    tg_verify::laws::verified_answers();
    laws::received_sections();
    laws::told_bodies();
    loop {
        let Ok(filled) = take_piece(input, room) else {
            return Err(ClientFault::InputFault);
        };
        if filled == 0 {
            return body.end();
        }
        let end = body.feed(&room[..filled], out);
        if let Some(terminal) = body.terminal() {
            teller.tell(terminal, out);
        }
        end?;
    }
}
