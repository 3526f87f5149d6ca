//! What is asked of a DAG: queries and their byte ranges.
ghost use Rattle.std.specs.Prelude.{◌≡◌, ℕ, ◌^◌, ◌<◌, ◌≤◌, [], Option, Some, None, true, length, All, IfSome};
ghost use Rattle.std.specs.Prelude.{List as Items};
ghost use Rattle.tg_cid.specs.Cid.{CidParts};
ghost use Rattle.tg_model.specs.EntryNames.{IsGoodName};
ghost use Rattle.tg_model.specs.Traversal.{is_asked};
ghost use Rattle.tg_model.specs.Queries.{IsFrom, IsSpan, IsUpTo, QueryParts, SpanParts, WellFormed};

use std::alloc::Global;
use std::marker::Model;
use tg_bytes::{Bytes, List};
use tg_cid::{Cid, HashKind};

/// The segments of a path in order, each the name of an entry.
pub type Path = List<Bytes>;

/// What is sent: one raw block, or a CAR.
///
/// Trustless Gateway specification, response types.
#[derive(Clone, Copy, Debug, PartialEq, Eq)]
pub enum Form {
    /// The root's block.
    Raw,
    /// A CAR.
    Car,
}

/// How much below the terminal is asked for.
///
/// Trustless Gateway specification, dag-scope.
#[derive(Clone, Copy, Debug, PartialEq, Eq)]
pub enum Scope {
    /// The terminal's block alone.
    Block,
    /// The terminal's content, target or listing.
    Entity,
    /// All below the terminal.
    All,
}

/// Where a byte range begins.
#[derive(Clone, Copy, Debug, PartialEq, Eq)]
pub enum SpanFrom {
    /// At this offset.
    Start(u64),
    /// So many bytes before the end.
    Last(u64),
}

/// A range of a file's bytes: where it begins, and its last byte, or none where it goes up to the end. Its numbers are
/// below 2^63, and an offset isn't above the last byte.
///
/// Trustless Gateway specification, entity-bytes.
#[derive(Clone, Copy, Debug, PartialEq, Eq)]
pub struct Span {
    from: SpanFrom,
    to: Option<u64>,
}

impl Model for Span {
    ghost use Rattle.tg_model.specs.Queries.{SpanParts, IsSpan};

    ghost Value = { SpanParts };

    ghost view = { λ s. record { from = s.from; to = s.to } };

    ghost invariant = { λ s. IsSpan (record { from = s.from; to = s.to }) };

    ghost inverse = { λ s. record { from = s.from; to = s.to } };
}

impl Span {
    /// The range from the byte at `start` up to and with the one at `to`, or up to the end.
    pub fn from_start(start: u64, to: Option<u64>) -> Span
        requires start { start < 2 ^ 63 }
        requires to { IfSome to (λ last. (last < 2 ^ 63) × (start ≤ last)) }
        ensures { result ≡ record { from = SpanFrom.Start start; to = to } }
    {
        Span {
            from: SpanFrom::Start(start),
            to,
        }
    }

    /// The range from `count` bytes before the end up to and with the byte at `to`, or up to the end.
    pub fn last(count: u64, to: Option<u64>) -> Span
        requires count { count < 2 ^ 63 }
        requires to { IfSome to (λ last. last < 2 ^ 63) }
        ensures { result ≡ record { from = SpanFrom.Last count; to = to } }
    {
        Span {
            from: SpanFrom::Last(count),
            to,
        }
    }

    /// Where the range begins.
    pub fn from(&self) -> SpanFrom
        ensures from { result ≡ self.now.from }
        ensures well_formed { IsFrom result }
    {
        self.from
    }

    /// The last byte of the range, or none where it goes up to the end.
    pub fn to(&self) -> Option<u64>
        ensures to { result ≡ self.now.to }
        ensures well_formed { IfSome result (λ to. IsUpTo self.now.from to) }
    {
        self.to
    }
}

/// What is asked of a DAG: its root, a path from there to the terminal, what is sent of it and in which form, a range
/// of a file's bytes, and whether a block that stands at several places is sent at each.
///
/// A path has at most 128 segments, each the name of an entry. A range has scope entity. A raw query has the empty
/// path, scope block, no range, and repeats.
///
/// Trustless Gateway specification.
#[derive(Drop)]
pub struct Query {
    root: Cid,
    path: Path,
    form: Form,
    scope: Scope,
    span: Option<Span>,
    dups: bool,
}

impl Model for Query {
    ghost use Rattle.tg_model.specs.Queries.{QueryParts, WellFormed};

    ghost Value = { QueryParts };

    ghost view = { λ q. record {
      root = q.root;
      path = q.path;
      form = q.form;
      scope = q.scope;
      span = q.span;
      dups = q.dups;
    } };

    ghost invariant = { λ q. WellFormed (record {
      root = q.root;
      path = q.path;
      form = q.form;
      scope = q.scope;
      span = q.span;
      dups = q.dups;
    }) };
}

impl Query {
    /// A query for a CAR.
    pub fn car(root: Cid, path: Path, scope: Scope, span: Option<Span>, dups: bool) -> Query
        requires few { length path ≤ 128 }
        requires good { All IsGoodName path }
        requires span { IfSome span (λ range. (scope ≡ Scope.Entity) × IsSpan range) }
        ensures { result ≡ record
            { root = root; path = path; form = Form.Car; scope = scope; span = span; dups = dups } }
    {
        Query {
            root,
            path,
            form: Form::Car,
            scope,
            span,
            dups,
        }
    }

    /// A query for the root's block, in the form of a raw block.
    pub fn raw(alloc: Global, root: Cid) -> Query
        ensures { result ≡ record
            { root = root; path = []; form = Form.Raw; scope = Scope.Block; span = None; dups = true } }
    {
        Query {
            root,
            path: List::new(alloc),
            form: Form::Raw,
            scope: Scope::Block,
            span: None,
            dups: true,
        }
    }

    /// The root.
    pub fn root(&self) -> Cid
        ensures { result ≡ self.now.root }
    {
        self.root
    }

    /// The path from the root to the terminal.
    pub fn path(&self) -> &Path
        ensures path { result.now ≡ self.now.path }
        ensures few { length result.now ≤ 128 }
        ensures good { All IsGoodName result.now }
    {
        &self.path
    }

    /// The form in which it is sent.
    pub fn form(&self) -> Form
        ensures { result ≡ self.now.form }
    {
        self.form
    }

    /// How much below the terminal is asked for.
    pub fn scope(&self) -> Scope
        ensures { result ≡ self.now.scope }
    {
        self.scope
    }

    /// The range of a file's bytes, where one is given.
    pub fn span(&self) -> Option<Span>
        ensures span { result ≡ self.now.span }
        ensures well_formed { IfSome result IsSpan }
    {
        self.span
    }

    /// Whether a block that stands at several places is sent at each of them.
    pub fn dups(&self) -> bool
        ensures { result ≡ self.now.dups }
    {
        self.dups
    }

    /// Whether a section under the CID is asked for: under an identity CID none is, since its block is its digest, but
    /// for the root of a query for a raw block.
    ///
    /// Trustless Gateway specification, CAR responses; CID specification.
    pub fn asks(&self, cid: &Cid) -> bool
        ensures { result ≡ is_asked self.now cid.now }
    {
        match (self.form, cid.hash_kind()) {
            (Form::Car, HashKind::Identity) => false,
            _ => true,
        }
    }
}

/// Every query and every range is well formed, whoever made it.
pub fn well_formed(query: &Query)
    ensures { WellFormed query.now }
{
    let _root = &query.root;
}
