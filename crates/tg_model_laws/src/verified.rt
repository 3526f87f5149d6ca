//! Laws of what a verifier stands for.
ghost use Rattle.tg_model_laws.specs.Verified.{VerifiedLaws};

use crate::beside::beside_dags;
use crate::openings::taken_blocks;

/// What a verifier stands for that takes sections one by one, each at the place that is wanted next and passing there:
/// they are in progress or fit, what was given is what is written for them, and beside each sound DAG of the query's
/// root it is what that DAG's traversal gives, or there is a collision pair. And each section of a list that fits, or
/// is in progress, or shows that a segment of the path leads nowhere, passes in its turn. Besides, of tasks none is
/// left, or a block is wanted, or a segment leads nowhere; and a collision pair of some sections is one of all that
/// hold them, or those of them that aren't their CIDs' digests.
///
/// Trustless Gateway specification, dag-scope and entity-bytes.
pub fn verified_sections()
    ensures { VerifiedLaws }
{
    taken_blocks();
    beside_dags();
    crate::partial_dags();
    crate::opened_texts();
}
