//! Laws of walks over a store.
ghost use Rattle.tg_model_laws.specs.StoreWalks.{WalkLaws};

use crate::stages::traversal_stages;

/// A walk over what a store shows, which goes over a query's tasks and looks up a CID at each place: what it has given
/// is a front of the traversal, each of its ends is the traversal's, and it stops before the first place, stored or
/// not, that lies below a depth.
///
/// Path Gateway specification, Path Resolution; Trustless Gateway specification, dag-scope and entity-bytes.
pub fn store_walks()
    ensures { WalkLaws }
{
    traversal_stages();
}
