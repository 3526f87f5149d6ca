//! Where a query's path leads, shown by sections.
ghost use Rattle.std.specs.Prelude.{◌≡◌, IfOk};
ghost use Rattle.tg_verify.specs.Absences.{path_limits, path_query};
ghost use Rattle.tg_verify.specs.Taken.{IsFresh};

use crate::verifier::Verifier;
use std::alloc::{AllocError, Global};
use tg_model::{LimitKind, Limits, Query, Scope};
use tg_traversal::copied_path;

impl Verifier {
    /// The verifier of sections that show where a query's path leads, which is to be started: those of the blocks on the
    /// way to the terminal, and the terminal's. It is one for the block at the end of the path, and no limit on the
    /// answer's bytes but the standard one holds, which no block passes. That no block is wanted any more says that the
    /// path leads to a terminal; `NotFolder` and `NotThere` say that it doesn't. The error is want of memory.
    ///
    /// Path Gateway specification, Path Resolution; Trustless Gateway specification, CAR responses.
    pub fn absence(alloc: Global, query: &Query, limits: Limits) -> Result<Verifier, AllocError>
        ensures query { IfOk result (λ v. v.left.query ≡ path_query query.now) }
        ensures limits { IfOk result (λ v. v.limits ≡ path_limits limits) }
        ensures fresh { IfOk result IsFresh }
    {
        let path = copied_path(alloc, query.path())?;
        let block = Query::car(query.root(), path, Scope::Block, None, query.dups());
        let most = Limits::standard().number(LimitKind::Output);
        let limits = limits.with(LimitKind::Output, most);
        Verifier::new(alloc, &block, limits)
    }
}
