//! What is left of a traversal, as a stack of frames.
ghost use Rattle.std.specs.Prelude.{◌≡◌, ℕ, None, Some, IfOk, OnErr, drop, length};
ghost use Rattle.tg_traversal.specs.BlocksLeft.{HasFewer};
ghost use Rattle.tg_traversal.specs.Left.{IsNext, IsOnPath, WantedAt, tasks_left, told_wanted};
ghost use Rattle.tg_traversal.specs.Places.{role_at, want_of};
ghost use Rattle.tg_model_laws.specs.Tasks.{path_want, start};

use crate::frame::Visited;
use crate::position::{Ask, Miss, Place, Position, Reach, Role, Wanted};
use crate::stack::{Came, Stack};
use std::alloc::{AllocError, Global};
use std::marker::Model;
use tg_bytes::{Bytes, List};
use tg_model::{Entry, Form, Path, Query, well_formed};

/// What comes next of a traversal.
#[derive(Drop)]
pub enum Next {
    /// Nothing is left.
    Nothing,
    /// A block is wanted, of which `wanted` tells.
    Block,
    /// A line ends behind a file or a symbolic link of a bundle.
    Line,
    /// A directory that is listed or bundled has this entry. The directory's path is `directory` bytes long; that of a
    /// listed one is empty.
    Entry { entry: Entry, directory: u64 },
    /// A segment of the path leads nowhere.
    Missing(Miss),
}

/// What is left of the traversal of a DAG for a query, block by block: the frames of the blocks that were opened, the
/// outer ones first, and the place whose block is wanted now. Contracts see the query, that place, and the tasks behind
/// it.
///
/// A frame shares a file's block, with a cursor over its links, or what is left of a directory's entries; one
/// of which nothing is left is dropped before its last child is gone into. Trustless Gateway specification, dag-scope,
/// entity-bytes and order dfs.
#[derive(Drop)]
pub struct Frames {
    pub(crate) alloc: Global,
    pub(crate) query: Query,
    pub(crate) wanted: Option<Place>,
    pub(crate) missed: Option<Miss>,
    pub(crate) stack: Stack,
}

impl Model for Frames {
    ghost use Rattle.std.specs.Prelude.{◌++◌, length};
    ghost use Rattle.tg_traversal.specs.Left.{HasOneAtMost, IsPlaceOnPath, LeftState, missed_tasks, wanted_at};

    ghost Value = { LeftState };

    ghost view = { λ f. record {
      query = f.query;
      wanted = wanted_at f.query.path f.wanted;
      later = missed_tasks f.missed ++ f.stack;
    } };

    ghost invariant = { λ f. HasOneAtMost f.wanted f.missed × IsPlaceOnPath f.wanted (length f.query.path) };
}

impl Frames {
    /// The traversal for a query before its first block, which is the root's. The error is want of memory.
    pub fn new(alloc: Global, query: &Query) -> Result<Frames, AllocError>
        ensures query { IfOk result (λ frames. frames.query ≡ query.now) }
        ensures start { IfOk result (λ frames. tasks_left frames ≡ start query.now query.now.root) }
        ensures wanted { IfOk result (λ frames. told_wanted frames.wanted ≡ Some
            (record { cid = query.now.root; depth = 1 })) }
    {
        let query = copied(alloc, query)?;
        let place = Place {
            cid: query.root(),
            depth: 1,
            ask: ask_behind(&query, 0),
        };
        Ok(Frames {
            alloc,
            query,
            wanted: Some(place),
            missed: None,
            stack: Stack::new(alloc),
        })
    }

    /// The query whose traversal it is.
    pub fn query(&self) -> &Query
        ensures { result.now ≡ self.now.query }
    {
        &self.query
    }

    /// The place that is wanted now, which `next` gave as `Block`. It takes no memory.
    pub fn wanted(&self) -> Option<Wanted>
        ensures { result ≡ told_wanted self.now.wanted }
    {
        let place = self.wanted.as_ref()?;
        Some(Wanted {
            cid: place.cid,
            depth: place.depth,
        })
    }

    /// What the block is at the place that is wanted now, or none where the place is on the path or its terminal, and
    /// where a range is asked. It takes no memory.
    pub fn role(&self) -> Option<Role>
        ensures { (at : WantedAt) → self.now.wanted ≡ Some at → result ≡ role_at at.want }
    {
        match &self.wanted.as_ref()?.ask {
            Ask::Node(Reach::Bundled(_), Position::Top) => Some(Role::Entry),
            Ask::Node(Reach::Entire, Position::Part(_)) => Some(Role::Part),
            Ask::Node(Reach::Bundled(_) | Reach::Listed, Position::Child(above)) => {
                Some(Role::Child(above.as_slice().len() as u64))
            }
            _ => None,
        }
    }

    /// What comes next, which is taken; but a block that is wanted, and a segment that leads nowhere, stay.
    ///
    /// The error is want of memory, with which nothing changes.
    pub fn next(&mut self) -> Result<Next, AllocError>
        ensures query { self.new.query ≡ self.old.query }
        ensures next { IfOk result (λ next. IsNext self.old next self.new) }
        ensures err { OnErr result (self.new ≡ self.old) }
    {
        if self.wanted.is_some() {
            return Ok(Next::Block);
        }
        if let Some(miss) = self.missed {
            return Ok(Next::Missing(miss));
        }
        match self.stack.next(self.alloc)? {
            Came::Nothing => Ok(Next::Nothing),
            Came::Line => Ok(Next::Line),
            Came::Link(visited) => {
                let Visited {
                    met,
                    into,
                    directory,
                } = visited;
                self.wanted = into;
                match met {
                    Some(entry) => Ok(Next::Entry { entry, directory }),
                    None => Ok(Next::Block),
                }
            }
        }
    }

    /// Passes over the place that is wanted now, of which the block alone is asked for.
    pub fn pass(&mut self)
        ensures query { self.new.query ≡ self.old.query }
        ensures wanted { self.new.wanted ≡ None }
        ensures later { self.new.later ≡ self.old.later }
        ensures fewer { HasFewer self.old self.new }
    {
        self.wanted = None;
    }
}

/// A query for the same. The error is want of memory.
fn copied(alloc: Global, query: &Query) -> Result<Query, AllocError>
    ensures { IfOk result (λ copy. copy ≡ query.now) }
{
    well_formed(query);
    match query.form() {
        Form::Raw => Ok(Query::raw(alloc, query.root())),
        Form::Car => {
            let path = copied_path(alloc, query.path())?;
            Ok(Query::car(
                query.root(),
                path,
                query.scope(),
                query.span(),
                query.dups(),
            ))
        }
    }
}

/// A path with the same segments. The error is want of memory.
///
/// Path Gateway specification, Path Resolution.
pub fn copied_path(alloc: Global, path: &Path) -> Result<Path, AllocError>
    ensures { IfOk result (λ copy. copy ≡ path.now) }
{
    let mut copy = List::new(alloc);
    for name in path.as_slice() {
        copy.push(Bytes::of(alloc, name.as_slice())?)?;
    }
    Ok(copy)
}

/// What is asked at the top behind so many segments of the path.
pub(crate) fn ask_behind(query: &Query, gone: usize) -> Ask
    ensures want { (depth : ℕ) → want_of query.now.path result depth ≡ path_want gone (drop gone query.now.path) depth }
    ensures on_path { IsOnPath result (length query.now.path) }
{
    if gone < query.path().as_slice().len() {
        Ask::Segment(gone, Position::Top)
    } else {
        Ask::Terminal
    }
}
