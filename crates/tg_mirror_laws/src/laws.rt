//! Laws on stores that hold one sound DAG, over the definitions alone. Each is the contract of a function that does nothing.
ghost use Rattle.tg_mirror_laws.specs.Mirrored.{HoldsByHashes, MirroredHolds, MirroredReplies, MirroredTold, ServesHashed};
ghost use Rattle.tg_mirror_laws.specs.SameReplies.{SameReplies, SameViews};

/// Two stores that hold the blocks of a sound DAG show the same of its root, however deep it is, and give the same reply to
/// each request that asks for it: any path, scope, range and form, by GET or HEAD, and a reply that is cut as well.
///
/// Path Gateway and Trustless Gateway specifications.
pub fn same_replies()
    ensures views { SameViews }
    ensures replies { SameReplies }
{
    tg_model_laws::cut_traversals();
}

/// A store with the block of each node of a sound DAG whose CID has sha2-256 replies as any store that holds the DAG.
///
/// It has them once the sections of a query for the whole DAG were kept in it, from none on: those of the DAG's own
/// traversal, or two blocks of the DAG have one SHA-256; and those that a client accepted from a peer that it doesn't trust,
/// or a received section and a node of the DAG are different blocks with one SHA-256, or two blocks of the DAG are.
///
/// Path Gateway and Trustless Gateway specifications, dag-scope all.
pub fn mirrored_dags()
    ensures serves { ServesHashed }
    ensures held { HoldsByHashes }
    ensures holds { MirroredHolds }
    ensures replies { MirroredReplies }
    // As far as the store tells what it holds.
    ensures told { MirroredTold }
{
    same_replies();
    tg_model_laws::traversals();
    tg_model_laws::against_every_peer();
    tg_model_laws::kept_sections();
}
