//! Laws of what an audit finds, over the definitions alone. Each is the contract of a function that does nothing.
ghost use Rattle.tg_audit.specs.Denials.{DenialsHaveCauses};
ghost use Rattle.tg_audit.specs.Holding.{AttachedHolds, CollidesOrNot};
ghost use Rattle.tg_audit.specs.OneText.{OneAuditText};
ghost use Rattle.tg_audit.specs.Own.{OwnIsAnswered, OwnIsRefused};

/// A query that is asked over a store that holds the blocks of a sound DAG, within the standard limits, has the DAG's
/// answer; and where a segment of its path leads nowhere it is refused for that segment. Want of memory is free.
///
/// RFC 9112; Trustless Gateway specification; Path Gateway specification, Path Resolution.
pub fn own_queries()
    ensures answered { OwnIsAnswered }
    ensures refused { OwnIsRefused }
{
    tg_heard::own_requests();
    tg_heard::own_replies_carry();
    tg_answering::own_replies();
    tg_reply::one_writing();
    tg_reply::sent_is_determined();
    tg_fetch::laws::carried_replies();
    tg_fetch::laws::carried_absences();
    tg_model_laws::paths();
    tg_model_laws::own_sections();
    tg_model_laws::own_absences();
    tg_model_laws::against_every_peer();
}

/// What is attached of a pack with a folder's DAG holds the DAG's blocks, where one block stands under each CID; else two
/// different blocks of the DAG have one SHA-256.
///
/// CARv1 specification.
pub fn attached_packs()
    ensures collides { CollidesOrNot }
    ensures holds { AttachedHolds }
{
    tg_car::laws::car_laws();
}

/// A query of an audit is refused, or has another answer than the expected one, or the pack isn't attached, only where two
/// different blocks of the folder's DAG have one SHA-256; or where the directory `many` has more shards than its listing may
/// remember, 1,048,575, which takes more than 393,113 files. Its answers are the DAG's, these are the ones that are expected of
/// what was drawn, and all nine queries are within the standard limits. And the folder isn't imported only where two
/// files of `many` have names with one hash, which the fault shows.
///
/// This project's own text; UnixFS specification, HAMTDirectory.
pub fn denied_audits()
    ensures { DenialsHaveCauses }
{
    own_queries();
    attached_packs();
    tg_model::laws::good_names();
    tg_model_laws::paths();
    tg_model_laws::traversals();
    tg_model_laws::cut_traversals();
    tg_model_laws::file_sizes();
    tg_store::laws::one_cause();
    tg_varint::laws::spelling_laws();
    tg_cid::laws::one_spelling();
    tg_node_writing::laws::written_nodes();
    tg_dagpb::laws::one_text();
    tg_unixfs::laws::one_data();
}

/// Two audits of one seed and number of files that end well tell the same text, or two names of `many` have one hash.
///
/// This project's own text; UnixFS specification, HAMTDirectory.
pub fn one_text()
    ensures { OneAuditText }
{
    tg_layout_laws::one_layout();
}
