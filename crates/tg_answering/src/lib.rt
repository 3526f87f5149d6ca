//! From what a walk over a store gives to what a gateway's reply sends, the replies of a gateway whose store holds a
//! sound DAG, those to queries for a raw block, and those where the root isn't stored. Each law is the contract of a
//! function that does nothing.
#![tactic(auto)]

ghost use Rattle.tg_answering.specs.MissedRoots.{MissedRoots};
ghost use Rattle.tg_answering.specs.OwnReplies.{OwnAbsences, OwnAnswers, OwnRaws, OwnSections};
ghost use Rattle.tg_answering.specs.StoredRoots.{StoredBlocks};
ghost use Rattle.tg_answering.specs.WalksSend.{DeepWalksSend, EndedWalksSend, WalksSendFronts};

/// A walk gives just the sections that a reply sends: all of them where it ended or the next block lies too deep, which
/// tell whether the reply is cut; and the first of them while it goes on.
///
/// Trustless Gateway specification, dag-scope, entity-bytes and dups.
pub fn walks_send()
    ensures ended { EndedWalksSend }
    ensures deep { DeepWalksSend }
    ensures fronts { WalksSendFronts }
{}

/// Over a store that holds the blocks of a sound DAG, of which none that is asked for lies deeper than 512, the reply
/// sends the sections of the DAG's own traversal: with an answer the CAR of them, of a path that leads nowhere that of
/// the blocks on it, and of a raw block the root's.
///
/// Trustless Gateway specification; Path Gateway specification, Path Resolution.
pub fn own_replies()
    ensures sections { OwnSections }
    ensures answers { OwnAnswers }
    ensures absences { OwnAbsences }
    ensures raws { OwnRaws }
{
    tg_reply::cut_places();
    tg_reply::raw_queries();
    tg_model_laws::cut_traversals();
    tg_model_laws::paths();
    tg_model_laws::traversals();
}

/// The reply to a query for a raw block that has no path: over a store that has the root's block, or where the root's
/// CID has it as its digest, that block; and over one that hasn't, the refusal `NoRoot`, with status 404.
///
/// Trustless Gateway specification, raw blocks and response status codes.
pub fn stored_blocks()
    ensures { StoredBlocks }
{}

/// Where a store has no block of the root that is asked for, and the root's hash isn't identity, the reply to any query
/// for it is the refusal that the root isn't stored, whatever the path, the scope and the form.
///
/// Path Gateway and Trustless Gateway specifications, response status codes.
pub fn missed_roots()
    ensures { MissedRoots }
{}
