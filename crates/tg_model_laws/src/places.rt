//! Laws of ranges, of shards, and of where children stand.
ghost use Rattle.tg_model_laws.specs.Places.{IsFaultlessShard, IsMetByBytes};
ghost use Rattle.tg_model_laws.specs.Standing.{StepsLead, VisitsStand};

/// A range meets a part of a file exactly where some byte lies in both.
///
/// Trustless Gateway specification, entity-bytes.
pub fn met_parts()
    ensures { IsMetByBytes }
{}

/// A shard may stand behind the slots that were passed exactly where they are at most seven and each of its entries
/// stands behind the slots of its name.
///
/// UnixFS specification, HAMTDirectory.
pub fn placed_shards()
    ensures { IsFaultlessShard }
{}

/// The children of a node that are gone into stand at their positions, and a step of a path leads to an entry at the
/// top or to a child shard behind the slots that were passed.
///
/// UnixFS specification, HAMTDirectory.
pub fn placed_children()
    ensures visits { VisitsStand }
    ensures steps { StepsLead }
{}
