//! Laws of a traversal beside a DAG.
ghost use Rattle.tg_model_laws.specs.BesideSound.{BesideLaws};

use crate::stages::traversal_stages;

/// Beside a sound DAG: as long as no received block differs from the DAG's under one CID, what was given is what the
/// DAG's traversal gives, and counts no more than the DAG does, and the next wanted place is the DAG's; a block under
/// the wanted CID that isn't the DAG's is one of a collision pair. Beside a partial DAG that opens with what was given:
/// the next of its sections passes where it is wanted, and leads on.
///
/// Path Gateway specification, Path Resolution; Trustless Gateway specification, dag-scope and entity-bytes.
pub fn beside_dags()
    ensures { BesideLaws }
{
    tg_model::laws::readings();
    traversal_stages();
    crate::partial_dags();
    crate::placed_children();
}
