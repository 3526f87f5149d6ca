//! Laws of the partial DAG that blocks open which were taken at their places.
ghost use Rattle.tg_model_laws.specs.TakenBlocks.{OpeningLaws};

use crate::stages::traversal_stages;

/// Blocks that are taken one by one, each at the place that is wanted next and passing there, open a partial DAG: what
/// was given is what its traversal gives, and the next wanted place is where that traversal ends.
///
/// Path Gateway specification, Path Resolution; Trustless Gateway specification, dag-scope and entity-bytes.
pub fn taken_blocks()
    ensures { OpeningLaws }
{
    traversal_stages();
    crate::placed_children();
}
