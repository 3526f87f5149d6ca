//! Queries of small DAGs, and what the evaluator says of them.
use crate::shapes::Shape;
use crate::stored::Stored;
use std::alloc::Global;
use tg_cid::Cid;
use tg_model::{Query, Scope, SpanFrom};
use tg_oracle::{Evaluation, QueryFault, evaluate, ranged_query, scoped_query, span_of};
use tg_traversal::copied_path;

/// What is asked for at the end of a path: a scope, or a range of a file.
#[derive(Clone, Copy, Debug)]
pub enum Asked {
    Scope(Scope),
    Bytes(SpanFrom, Option<u64>),
}

impl Asked {
    /// The query with the root and the path of another that asks for this, with repeats or without. There is none for
    /// want of memory, or where that makes no query.
    pub fn at(self, alloc: Global, query: &Query, dups: bool) -> Option<Query> {
        let Ok(path) = copied_path(alloc, query.path()) else {
            return None;
        };
        match self {
            Asked::Scope(scope) => Some(Query::car(query.root(), path, scope, None, dups)),
            Asked::Bytes(from, to) => match span_of(from, to) {
                Ok(span) => {
                    let span = Some(span);
                    Some(Query::car(query.root(), path, Scope::Entity, span, dups))
                }
                Err(_) => None,
            },
        }
    }
}

/// The block alone.
pub const BLOCK: Asked = Asked::Scope(Scope::Block);

/// The file, the symbolic link, or the listing of the directory.
pub const ENTITY: Asked = Asked::Scope(Scope::Entity);

/// All that is below.
pub const ALL: Asked = Asked::Scope(Scope::All);

/// Stored blocks, a query of them, and its evaluation.
#[derive(Drop)]
pub struct Case {
    pub stored: Stored,
    pub query: Query,
    pub found: Evaluation,
}

/// The case of what is asked for at a path of a DAG. There is none for want of memory, or where that makes no query.
pub fn case_of(alloc: Global, shape: Shape, path: &[&str], asked: Asked) -> Option<Case> {
    match shape.store(alloc) {
        Ok(stored) => asked_of(alloc, stored, path, asked),
        Err(_) => None,
    }
}

fn asked_of(alloc: Global, stored: Stored, path: &[&str], asked: Asked) -> Option<Case> {
    match query_of(alloc, stored.root, path, asked) {
        Ok(query) => evaluated(alloc, stored, query),
        Err(_) => None,
    }
}

fn query_of(alloc: Global, root: Cid, path: &[&str], asked: Asked) -> Result<Query, QueryFault> {
    match asked {
        Asked::Scope(scope) => scoped_query(alloc, root, path, scope),
        Asked::Bytes(from, to) => ranged_query(alloc, root, path, from, to),
    }
}

fn evaluated(alloc: Global, stored: Stored, query: Query) -> Option<Case> {
    match evaluate(alloc, stored.blocks.as_slice(), &query) {
        Ok(found) => Some(Case {
            stored,
            query,
            found,
        }),
        Err(_) => None,
    }
}
