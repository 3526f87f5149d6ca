//! Targets of requests.
ghost use Rattle.std.specs.Prelude.{◌≡◌, IfOk, option_copied};
ghost use Rattle.percent_encoding.specs.Percent.{percent_decode};
ghost use Rattle.tg_query.specs.Answers.{Gives};
ghost use Rattle.tg_query.specs.Cuts.{cut_at};
ghost use Rattle.tg_query.specs.Targets.{IsTarget, asked_of, form_of, nothing, scope_of, target_of, with_format};
ghost use Rattle.tg_query.specs.Targets.{with_param, with_piece, with_pieces, with_scope, with_span};

use crate::cuts::cut_first;
use crate::fault::QueryFault;
use crate::spans::parse_span;
use crate::words::{behind_front, parse_rooted};
use percent_encoding::percent_decode;
use std::alloc::{AllocError, Global};
use tg_cid::Cid;
use tg_model::{Form, Path, Scope, Span};

/// What a target asks for: a root, a path from there, and the format, scope and range where they are given.
///
/// Path Gateway and Trustless Gateway specifications.
#[derive(Drop)]
pub struct Target {
    /// The root.
    pub root: Cid,
    /// The path from the root, of at most 128 names of entries.
    pub path: Path,
    /// The value of `format`.
    pub format: Option<Form>,
    /// The value of `dag-scope`.
    pub scope: Option<Scope>,
    /// The value of `entity-bytes`.
    pub span: Option<Span>,
}

/// The values of the known keys of a query.
#[derive(Clone, Copy)]
struct Asked {
    format: Option<Form>,
    scope: Option<Scope>,
    span: Option<Span>,
}

/// Nothing is asked.
const NOTHING: Asked = Asked {
    format: None,
    scope: None,
    span: None,
};

/// What the target of a request asks for. The target is `/ipfs/`, a CID's text, nothing or `/` and a path, and nothing
/// or `?` and a query. Keys and values of the query are decoded from percent-encoding; unknown keys are passed over.
///
/// Path Gateway and Trustless Gateway specifications. Errors, in this order: `BadPath` where the front isn't `/ipfs/`,
/// `BadCid`, `BadPath` for the path; then for the pieces of the query from the left to the right `Doubled` where a
/// known key stands again, else `BadFormat`, `BadScope` or `BadRange` for its value; and `OutOfMemory`.
pub fn parse_target(alloc: Global, target: &[u8]) -> Result<Target, QueryFault>
    ensures target { Gives (target_of target.now) result }
    ensures good { IfOk result IsTarget }
{
    crate::path_laws::roots_read();
    crate::path_laws::spans_read();
    let Some(rest) = behind_front(target) else {
        return Err(QueryFault::BadPath);
    };
    let (rooted, query) = cut_first(rest, b'?');
    let (root, path) = parse_rooted(alloc, rooted)?;
    let asked = parse_query(alloc, query)?;
    Ok(Target {
        root,
        path,
        format: asked.format,
        scope: asked.scope,
        span: asked.span,
    })
}

/// What a query asks, which may be absent.
fn parse_query(alloc: Global, query: Option<&[u8]>) -> Result<Asked, QueryFault>
    ensures { Gives (asked_of (option_copied query.entry)) result }
{
    match query {
        Some(query) => parse_pieces(alloc, query),
        None => Ok(NOTHING),
    }
}

/// What the pieces of a query ask, from the left to the right.
fn parse_pieces(alloc: Global, query: &[u8]) -> Result<Asked, QueryFault>
    ensures { Gives (with_pieces nothing (cut_at 38 query.now)) result }
{
    let mut asked = NOTHING;
    for piece in query.split(|byte| *byte == b'&') {
        asked = asked.with_piece(alloc, piece)?;
    }
    Ok(asked)
}

impl Asked {
    /// The same with one piece of the query more.
    fn with_piece(self, alloc: Global, piece: &[u8]) -> Result<Asked, QueryFault>
        ensures { Gives (with_piece self piece.now) result }
    {
        let (key, value) = cut_first(piece, b'=');
        let key = decoded(alloc, key)?;
        let value = decoded(alloc, value.unwrap_or(&[]))?;
        self.with_param(key.as_slice(), value.as_slice())
    }

    /// The same with one key more.
    fn with_param(self, key: &[u8], value: &[u8]) -> Result<Asked, QueryFault>
        ensures { result ≡ with_param self key.now value.now }
    {
        if key == b"format".as_slice() {
            self.with_format(value)
        } else if key == b"dag-scope".as_slice() {
            self.with_scope(value)
        } else if key == b"entity-bytes".as_slice() {
            self.with_span(value)
        } else {
            Ok(self)
        }
    }

    /// The same with a format.
    fn with_format(self, word: &[u8]) -> Result<Asked, QueryFault>
        ensures { result ≡ with_format self word.now }
    {
        if self.format.is_some() {
            return Err(QueryFault::Doubled);
        }
        let format = Some(form_of(word)?);
        Ok(Asked { format, ..self })
    }

    /// The same with a scope.
    fn with_scope(self, word: &[u8]) -> Result<Asked, QueryFault>
        ensures { result ≡ with_scope self word.now }
    {
        if self.scope.is_some() {
            return Err(QueryFault::Doubled);
        }
        let scope = Some(scope_of(word)?);
        Ok(Asked { scope, ..self })
    }

    /// The same with a range.
    fn with_span(self, text: &[u8]) -> Result<Asked, QueryFault>
        ensures { result ≡ with_span self text.now }
    {
        if self.span.is_some() {
            return Err(QueryFault::Doubled);
        }
        let span = Some(parse_span(text)?);
        Ok(Asked { span, ..self })
    }
}

/// The format of a word.
fn form_of(word: &[u8]) -> Result<Form, QueryFault>
    ensures { result ≡ form_of word.now }
{
    if word == b"raw".as_slice() {
        Ok(Form::Raw)
    } else if word == b"car".as_slice() {
        Ok(Form::Car)
    } else {
        Err(QueryFault::BadFormat)
    }
}

/// The scope of a word.
fn scope_of(word: &[u8]) -> Result<Scope, QueryFault>
    ensures { result ≡ scope_of word.now }
{
    if word == b"block".as_slice() {
        Ok(Scope::Block)
    } else if word == b"entity".as_slice() {
        Ok(Scope::Entity)
    } else if word == b"all".as_slice() {
        Ok(Scope::All)
    } else {
        Err(QueryFault::BadScope)
    }
}

/// The bytes that a text in percent-encoding stands for. The error is want of memory.
fn decoded(alloc: Global, text: &[u8]) -> Result<Vec<u8>, AllocError>
    ensures { IfOk result (λ bytes. bytes.items ≡ percent_decode text.now) }
{
    let mut bytes = Vec::new(alloc);
    percent_decode(text).append_to(&mut bytes)?;
    Ok(bytes)
}
