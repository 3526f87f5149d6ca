//! Laws of stores.
ghost use Rattle.tg_model_laws.specs.Depths.{CutsAtDepths, ShowsDownTo};
ghost use Rattle.tg_model_laws.specs.Stores.{KeepingHolds, KeepingJoins, KeepingOnly, KeepingStays, KeepingStores};
ghost use Rattle.tg_model_laws.specs.Stores.{ShowsFront, ShowsSound};

/// Sections that were kept one after another: what was stored stays, nothing but their blocks is added, and the store is
/// still one. Each section is stored under its CID, or another block with the same SHA-256 is: one that was stored before,
/// or that of another of the sections.
pub fn kept_sections()
    ensures joins { KeepingJoins }
    ensures store { KeepingStores }
    ensures stays { KeepingStays }
    ensures only { KeepingOnly }
    ensures holds { KeepingHolds }
{}

/// A store that holds the blocks of a sound DAG of at most 1,100 blocks' depth shows that DAG, so that each traversal
/// of what it shows is the DAG's.
pub fn shown_dags()
    ensures whole { ShowsSound }
    // Whatever the depth, with some blocks unopened.
    ensures front { ShowsFront }
{
    tg_model::laws::readings();
}

/// A traversal of a sound DAG that is cut at a depth: its places aren't deeper, and it is the DAG's, or it stops where
/// a deeper block is wanted and gives fronts of what the DAG's gives. Cut at a depth of at most 1,100 blocks, what a
/// store shows is the sound DAG of which it holds the blocks.
pub fn cut_traversals()
    ensures cut { CutsAtDepths }
    ensures shown { ShowsDownTo }
{
    tg_model::laws::readings();
}
