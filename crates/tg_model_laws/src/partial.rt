//! Laws of partial DAGs.
ghost use Rattle.tg_model_laws.specs.PartialDags.{AreChecked, AreFollowed, AreOneBlock, AreOpenedFrom, MeetEntries};
ghost use Rattle.tg_model_laws.specs.PartialDags.{SayTexts};

/// A received block and one of a DAG that one CID names are equal, or they are a collision pair. A checked partial DAG
/// is the sound DAG of its root with some blocks unopened, or there is a collision pair; and a sound DAG with some
/// blocks unopened is checked. The traversal of a DAG with some blocks unopened is the DAG's, or it stops at one of
/// these, and gives fronts of what the DAG's gives.
pub fn partial_dags()
    ensures one_block { AreOneBlock }
    ensures opened { AreOpenedFrom }
    ensures checked { AreChecked }
    ensures followed { AreFollowed }
{
    tg_model::laws::readings();
}

/// Of what was opened for a query, where the traversal came through, the text is what the terminal says, and of a
/// listing it meets just the entries.
///
/// Trustless Gateway specification, dag-scope and entity-bytes.
pub fn opened_texts()
    ensures text { SayTexts }
    ensures listing { MeetEntries }
{}
