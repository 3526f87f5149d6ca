//! One traversal behind another, and one step of a traversal.
ghost use Rattle.tg_model_laws.specs.Steps.{BeginsAtRoot, EndsAtTerminal, GoesBelow, IsAssociative, NothingBefore};
ghost use Rattle.tg_model_laws.specs.Steps.{NothingBehind, StepsOn, StopsBelow, StopsOnPath};

/// Traversals one behind another: nothing before or behind one changes it, and of three it doesn't matter which two are
/// taken together.
pub fn traversals_joined()
    ensures before { NothingBefore }
    ensures behind { NothingBehind }
    ensures associative { IsAssociative }
{}

/// One step of the traversal of a query: at a node of the path, at the terminal, and below it.
///
/// Path Gateway specification, Path Resolution; Trustless Gateway specification, dag-scope and entity-bytes.
pub fn traversal_steps()
    ensures root { BeginsAtRoot }
    ensures path { StepsOn }
    ensures path_fault { StopsOnPath }
    ensures terminal { EndsAtTerminal }
    ensures below { GoesBelow }
    ensures below_fault { StopsBelow }
{}
