//! Laws of replies, each the contract of a function that does nothing.
ghost use Rattle.httparse.specs.Grammar.{AllPass, is_value_byte};
ghost use Rattle.std.specs.Prelude.{◌≡◌, ◌≢◌, ◌<◌, ℕ, All, Err, List};
ghost use Rattle.tg_car.specs.CarText.{SectionText};
ghost use Rattle.tg_car.specs.Writing.{HeaderOf};
ghost use Rattle.tg_cid.specs.Cid.{CidParts};
ghost use Rattle.tg_cid.specs.Spelling.{CidBytes};
ghost use Rattle.tg_http.specs.declared.request.RequestHead.{RequestHead};
ghost use Rattle.tg_model.specs.Dag.{Section};
ghost use Rattle.tg_model.specs.Queries.{QueryParts};
ghost use Rattle.tg_query.specs.declared.fault.QueryFault.{QueryFault};
ghost use Rattle.tg_reply.specs.Asked.{asked};
ghost use Rattle.tg_reply.specs.AskedReadings.{AskedRawHasNoPath, AskedRepliesRead, AskedSpells, SentSpelled, TargetsAreBytes};
ghost use Rattle.tg_reply.specs.Bodies.{CarsInParts, CutGoesOn, WholeInChunks, WholeInLength, WholeUntilClose};
ghost use Rattle.tg_reply.specs.Bodies.{car_section};
ghost use Rattle.tg_reply.specs.CarBytes.{car_header, section_bytes};
ghost use Rattle.tg_reply.specs.Cutting.{CutsBeforeDeeper};
ghost use Rattle.tg_reply.specs.Heads.{asked_path};
ghost use Rattle.tg_reply.specs.Laws.{CarReadsBack, RawReadsBack, RefusalsReadBack};
ghost use Rattle.tg_reply.specs.Readings.{CarReads, RawReads, RefusalsRead, RefusedBytesRead};
ghost use Rattle.tg_reply.specs.declared.refusal.Refusal.{Refusal};

/// The head of each reply reads back, whatever follows it, as a head with the status, type and framing that it was
/// given and no coding: of refusals always, and of replies with blocks where it fits a head and the path is bytes of a
/// field.
///
/// RFC 9112, sections 4 to 6.
pub fn reply_heads()
    ensures refusals { RefusalsReadBack }
    ensures raw { RawReadsBack }
    ensures car { CarReadsBack }
{}

/// The body of each reply with blocks, through a reader of bodies: a raw block and a text have their length; the parts
/// of a CAR in chunks are a whole body, and cut they are the front of one that goes on; to HTTP/1.0 they go on until
/// the connection closes.
///
/// RFC 9112, sections 6.3 and 7.1.
pub fn reply_bodies()
    ensures length { WholeInLength }
    ensures whole { WholeInChunks }
    ensures cut { CutGoesOn }
    ensures plain { WholeUntilClose }
{}

/// The parts of a CAR are together the text of the CAR with the query's root alone, in its version 1 form, and with the
/// sections, where their CIDs are spelled and their blocks are bytes and not too long; and no part is empty.
///
/// CARv1 specification, Header and Data.
pub fn car_bytes()
    ensures { CarsInParts }
{
    tg_cid::laws::computes();
    tg_cid::laws::length_laws();
    tg_varint::laws::spelling_laws();
}

/// A root has one header of a CAR, and a section has one text: the bytes that `car_header` and `section_bytes` compute.
///
/// CARv1 specification, Header and Data.
pub fn car_texts()
    ensures header { (root : CidParts) (bytes : List ℕ) → HeaderOf root bytes → bytes ≡ car_header root }
    ensures section { (section : Section) (text : List ℕ) → SectionText (car_section section) text
        → text ≡ section_bytes section }
{
    tg_cid::laws::computes();
    tg_cid::laws::one_spelling();
    tg_varint::laws::spelling_laws();
}

/// The path that a head tells is bytes of a field, where the root is spelled and the names are bytes.
///
/// RFC 9110, section 5.5; RFC 3986, section 2.1.
pub fn told_paths()
    ensures { (q : QueryParts) (name : List ℕ) → CidBytes q.root name → All (λ name. All (λ b. b < 256) name) q.path
        → AllPass is_value_byte (asked_path q) }
{
    tg_cid::laws::computes();
}

/// A request is never refused for want of memory.
pub fn no_memory()
    ensures { (head : RequestHead) (fault : QueryFault) → asked head ≡ Err (Refusal.Query fault)
        → fault ≢ QueryFault.OutOfMemory }
{
    tg_query::path_laws::roots_read();
    tg_query::path_laws::paths_read();
    tg_query::path_laws::spans_read();
}

/// What a reader makes of the replies to `GET`: a refusal is its text, a raw block is the block, and a CAR that isn't
/// cut is the CAR, each whole in the framing that its head states; where the head of a reply with blocks fits a head,
/// the root is spelled, the names are bytes, and the sections are spelled.
///
/// RFC 9112, sections 4 to 7; CARv1 specification.
pub fn replies_read()
    ensures refusals { RefusalsRead }
    ensures refused_bytes { RefusedBytesRead }
    ensures raw { RawReads }
    ensures car { CarReads }
{
    told_paths();
    car_bytes();
}

/// Of any DAG whose blocks below a depth are unopened the traversal gives the places of the whole one before the first
/// that is deeper, and comes through exactly where the whole one does and no place is deeper. It ends as the whole one
/// does, or where a deeper block is wanted.
///
/// Trustless Gateway specification, dag-scope.
pub fn cut_places()
    ensures { CutsBeforeDeeper }
{}

/// The target of a request is bytes, as it is UTF-8.
///
/// RFC 3629, section 3.
pub fn request_targets()
    ensures { TargetsAreBytes }
{}

/// A query that a target of bytes asks has a root that is spelled, and names of bytes.
///
/// Path Gateway and Trustless Gateway specifications.
pub fn asked_queries()
    ensures { AskedSpells }
{
    tg_query::laws::targets_read();
}

/// A query for a raw block that is asked has no path.
///
/// Trustless Gateway specification, response types.
pub fn raw_queries()
    ensures { AskedRawHasNoPath }
{}

/// The sections that a store of bytes gives for a query whose root is spelled are spelled: each is the root's, or its
/// CID was read from a link, and its block is stored under it.
///
/// Trustless Gateway specification, dag-scope.
pub fn sent_sections()
    ensures { SentSpelled }
{
    tg_model::laws::readings();
}

/// What a reader makes of the reply to `GET` for a query that is asked, over a store of bytes, where the head of the
/// reply fits a head: at a terminal the block, or the CAR where it isn't cut; the CAR of the blocks on the path where it
/// leads nowhere and isn't cut; and else the text of the refusal.
///
/// RFC 9112, sections 4 to 7; CARv1 specification.
pub fn asked_replies_read()
    ensures { AskedRepliesRead }
{
    tg_model::laws::readings();
    replies_read();
    request_targets();
    asked_queries();
    sent_sections();
}
