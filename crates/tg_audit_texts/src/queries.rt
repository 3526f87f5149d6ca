//! The queries of an audit.
ghost use Rattle.std.specs.List.{list_all};
ghost use Rattle.std.specs.Prelude.{◌≡◌, ◌≤◌, IfOk, IsTrue, None, Some, length, map, true};
ghost use Rattle.tg_audit_texts.specs.Queries.{absent_query, answer_queries, car_query};
ghost use Rattle.tg_model.specs.Computed.{is_good_name};
ghost use Rattle.tg_model.specs.Queries.{IsSpan};

use std::alloc::{AllocError, Global};
use tg_bytes::{Bytes, List};
use tg_cid::Cid;
use tg_model::{Path, Query, Scope, Span};

/// The queries of an audit below a root that have an answer, in order: the bundle of all; of `big` two bytes over the
/// end of a chunk, the last five, and those of a range behind its end; the listing of `many`, each block once; `none`;
/// `empty` as a bundle; and the first file of `many`, each block once. The error is want of memory.
pub fn answer_queries(alloc: Global, root: Cid) -> Result<Vec<Query>, AllocError>
    ensures { IfOk result (λ queries. queries.items ≡ answer_queries root) }
{
    let big = [b"big".as_slice()];
    let first = [b"many".as_slice(), b"f000000"];
    let range = Span::from_start(1_048_575, Some(1_048_576));
    let behind = Span::from_start(20_000_000, None);
    let mut queries = Vec::new(alloc);
    queries.push(plain(alloc, root, &[], Scope::All, true)?)?;
    queries.push(ranged(alloc, root, &big, range)?)?;
    queries.push(ranged(alloc, root, &big, Span::last(5, None))?)?;
    queries.push(ranged(alloc, root, &big, behind)?)?;
    queries.push(plain(alloc, root, &[b"many"], Scope::Entity, false)?)?;
    queries.push(plain(alloc, root, &[b"none"], Scope::Entity, true)?)?;
    queries.push(plain(alloc, root, &[b"empty"], Scope::All, true)?)?;
    queries.push(plain(alloc, root, &first, Scope::Entity, false)?)?;
    Ok(queries)
}

/// The query of an audit for a name that isn't there. The error is want of memory.
pub fn absent_query(alloc: Global, root: Cid) -> Result<Query, AllocError>
    ensures { IfOk result (λ query. query ≡ absent_query root) }
{
    plain(alloc, root, &[b"missing"], Scope::Entity, true)
}

/// A query for what has this path below a root, whole. The error is want of memory.
fn plain(
    alloc: Global,
    root: Cid,
    names: &[&[u8]],
    scope: Scope,
    dups: bool,
) -> Result<Query, AllocError>
    requires few { length names.now ≤ 128 }
    requires good { IsTrue (list_all (λ name. is_good_name name.now) names.now) }
    ensures { IfOk result (λ query. query ≡ car_query root (map (λ name. name.now) names.now) scope None dups) }
{
    tg_model::laws::good_names();
    Ok(Query::car(root, path_of(alloc, names)?, scope, None, dups))
}

/// A query for a range of the file that has this path below a root. The error is want of memory.
fn ranged(alloc: Global, root: Cid, names: &[&[u8]], span: Span) -> Result<Query, AllocError>
    requires few { length names.now ≤ 128 }
    requires good { IsTrue (list_all (λ name. is_good_name name.now) names.now) }
    requires span { IsSpan span }
    ensures { IfOk result (λ query. query
        ≡ car_query root (map (λ name. name.now) names.now) Scope.Entity (Some span) true) }
{
    tg_model::laws::good_names();
    Ok(Query::car(
        root,
        path_of(alloc, names)?,
        Scope::Entity,
        Some(span),
        true,
    ))
}

/// The path of these names. The error is want of memory.
fn path_of(alloc: Global, names: &[&[u8]]) -> Result<Path, AllocError>
    ensures { IfOk result (λ path. path ≡ map (λ name. name.now) names.now) }
{
    let mut path = List::new(alloc);
    for name in names {
        path.push(Bytes::of(alloc, name)?)?;
    }
    Ok(path)
}
