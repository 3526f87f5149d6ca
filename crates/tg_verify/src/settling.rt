//! What comes before the next place, and a listing at the end.
ghost use Rattle.std.specs.Prelude.{◌≡◌, [], ℕ, Err, IfErr, List as Items, MatchResult, OnOk, length, map};
ghost use Rattle.tg_listing.specs.Listings.{line_of};
ghost use Rattle.tg_model.specs.Texts.{Named, listing};
ghost use Rattle.tg_streams.specs.Streams.{OutputQuiet, into};
ghost use Rattle.tg_traversal.specs.Frames.{listed_at};
ghost use Rattle.tg_verify.specs.History.{HasPutCause, IsPlaceFault};
ghost use Rattle.tg_verify.specs.Steps.{IsAdvanced, IsGatheredBy, IsMetAt, IsSameOpener, PutOrWants, refusal_of_miss};

use crate::fault::Refusal;
use crate::opener::Opener;
use std::alloc::AllocError;
use std::mem::replace;
use tg_bytes::{Bytes, List};
use tg_listing::{ListingLine, put_listing};
use tg_model::{Entry, Scope};
use tg_streams::Sink;
use tg_traversal::{Miss, Next};

impl Opener {
    /// Gathers what comes before the next place: ends of lines go to `ends`, entries are counted, and their lines
    /// kept where they are of a listing.
    ///
    /// Errors: `NotThere` and `NotFolder` where a segment of the path leads nowhere; and `OutOfMemory`.
    pub(crate) fn gather(&mut self, ends: &mut Bytes) -> Result<(), Refusal>
        ensures same { IsSameOpener self.old self.new }
        ensures terminal { self.new.terminal ≡ self.old.terminal }
        ensures gathered { IsGatheredBy self.old ends.old self.new ends.new result }
    {
        while self.advance(ends)? {}
        Ok(())
    }

    /// Gathers the next of what comes before the next place, and says whether there was one.
    ///
    /// Errors: those of `gather`.
    fn advance(&mut self, ends: &mut Bytes) -> Result<bool, Refusal>
        ensures same { IsSameOpener self.old self.new }
        ensures terminal { self.new.terminal ≡ self.old.terminal }
        ensures step { IsAdvanced self.old ends.old self.new ends.new result }
    {
        match self.frames.next()? {
            Next::Nothing | Next::Block => return Ok(false),
            Next::Line => ends.push_all(b"\n")?,
            Next::Entry { entry, directory } => self.meet(entry, directory)?,
            Next::Missing(miss) => return Err(refusal_of_miss(miss)),
        }
        Ok(true)
    }

    /// Counts an entry of a directory whose path has so many bytes, with its line where it is of a listing, and keeps
    /// the line there. The error is want of memory.
    fn meet(&mut self, entry: Entry, directory: u64) -> Result<(), AllocError>
        ensures same { IsSameOpener self.old self.new }
        ensures terminal { self.new.terminal ≡ self.old.terminal }
        ensures met { (path : Items ℕ) → length path ≡ directory
            → OnOk result (IsMetAt self.old (listed_at path entry) entry self.new) }
    {
        self.counts.meet(directory, entry.name.as_slice())?;
        let is_kept = self.scope == Scope::Entity;
        if directory > 0 && !is_kept {
            return Ok(());
        }
        let line = ListingLine::of(self.alloc, entry)?;
        if directory == 0 {
            self.counts.say(line.len());
        }
        if is_kept {
            self.lines.push(line)?;
        }
        Ok(())
    }

    /// Puts the listing whose lines were kept. Errors: `SinkFault`; and `OutOfMemory`, with which nothing is put.
    pub(crate) fn put_kept_lines<S: Sink>(&mut self, out: &mut S) -> Result<(), Refusal>
        ensures others { self.new ≡ record self.old { lines = [] } }
        ensures put { (entries : Items Named) → self.old.lines ≡ map line_of entries
            → PutOrWants (listing entries) (into S.sink out.old out.new) result }
        ensures cause { MatchResult result (λ _. OutputQuiet (into S.sink out.old out.new))
            (λ fault. HasPutCause (Err fault) (into S.sink out.old out.new)) }
        ensures place { IfErr result IsPlaceFault }
    {
        let lines = replace(&mut self.lines, List::new(self.alloc));
        put_listing(self.alloc, lines, out)?;
        Ok(())
    }
}

/// The refusal where a segment of the path leads nowhere.
fn refusal_of_miss(miss: Miss) -> Refusal
    ensures { result ≡ refusal_of_miss miss }
{
    match miss {
        Miss::NoEntry(segment) => Refusal::NotThere { segment },
        Miss::NoDirectory(segment) => Refusal::NotFolder { segment },
    }
}
