//! What a verifier's answers mean.
ghost use Rattle.tg_verify.specs.Absences.{AnsweredLeadsThere};
ghost use Rattle.tg_verify.specs.Laws.{AnswerLaws};
ghost use Rattle.tg_verify.specs.Own.{OwnLaws};
ghost use Rattle.tg_verify.specs.Terminals.{TerminalsTold};

/// What follows from what a verifier stands for: the sections are in progress, or fit, and their text is written;
/// beside each sound DAG with the query's root it is the DAG's answer, or a front of it, or a received block and one of
/// the DAG are different bytes with one SHA-256; and sections that fit, or are in progress, are taken. A verifier that
/// goes on is up to the wanted block, or through where none is wanted; and an answer is a front of itself.
///
/// Trustless Gateway specification, dag-scope and entity-bytes.
pub fn verified_answers()
    ensures { AnswerLaws }
{
    tg_model::laws::readings();
    tg_model_laws::against_every_peer();
    tg_model_laws::beside_dags();
    tg_model_laws::verified_sections();
}

/// The sections of a sound DAG's own traversal, where its query has an answer, and one block stands under each CID
/// where each is sent once, are taken one by one, and what is then written is the answer.
///
/// Trustless Gateway specification, dag-scope and entity-bytes.
pub fn own_sections_taken()
    ensures { OwnLaws }
{
    tg_model::laws::readings();
    tg_model_laws::paths();
    tg_model_laws::traversals();
    tg_model_laws::own_sections();
    tg_model_laws::beside_dags();
    tg_model_laws::verified_sections();
}

/// What is written is the answer of a DAG only where the query's path leads to a terminal of it.
///
/// Path Gateway specification, Path Resolution.
pub fn answered_paths()
    ensures { AnsweredLeadsThere }
{}

/// What sections lead to, of which the last block of a front is the terminal's, is what the query's path leads to in each
/// sound DAG with the query's root, or a received block and one of the DAG are different bytes with one SHA-256.
///
/// Path Gateway specification, Path Resolution; UnixFS specification, node types.
pub fn told_terminals()
    ensures { TerminalsTold }
{
    tg_model::laws::readings();
    tg_model_laws::paths();
    tg_model_laws::beside_dags();
    tg_model_laws::verified_sections();
}
