//! A text that is made into a tree as it comes.
ghost use Rattle.std.specs.Prelude.{◌≡◌, ◌≢◌, ◌<◌, ◌≤◌, ◌++◌, ◌↔◌, ◌∷◌, [], IfOk, IfSome, IsErr, IsSomeAnd, IsTrue, None, OnErr, OnOk};
ghost use Rattle.std.specs.Prelude.{All, IfErr, MatchOption, Some, ⊤, length, take, ℕ};
ghost use Rattle.tg_bytes.specs.Ascii.{line_feed};
ghost use Rattle.tg_extract.specs.Counts.{counts_of};
ghost use Rattle.tg_extract.specs.Extracts.{EndsLine, Extracts, HasCause, HasMadeLine, HasMadeText, IsAtStage, IsMakeCause, IsRead, IsStoppedAt, IsStuck};
ghost use Rattle.tg_extract.specs.Extracts.{IsWhole, extract_joins, extract_rests, extract_sink, kind_of, link_at, text_of};
ghost use Rattle.tg_extract.specs.declared.counts.Counts.{Counts};
ghost use Rattle.tg_extract.specs.declared.extract.Stage.{Stage};
ghost use Rattle.tg_extract.specs.declared.fault.ExtractFault.{ExtractFault};
ghost use Rattle.tg_new_tree.specs.NewTrees.{AddedTo, BegunAt, NewTreeFailed, NewTreeQuiet, SameTree, new_tree_step};
ghost use Rattle.tg_streams.specs.Streams.{OutputQuiet, OutputRose, Put, Unput, into};
ghost use Rattle.tg_faults.specs.Faults.{Rose};

use crate::counts::Counts;
use crate::fault::ExtractFault;
use crate::lines::{Line, parse_line};
use std::alloc::{AllocError, Global};
use std::marker::Model;
use std::mem::replace;
use tg_bytes::{Bytes, LINE_FEED, List};
use tg_faults::Failed;
use tg_new_tree::NewTree;
use tg_query::cut_first;
use tg_streams::Sink;
use tg_verify::Terminal;

/// How far a text was read.
#[derive(Drop)]
pub(crate) enum Stage {
    /// What it is of isn't told yet: all that came.
    Waiting(Bytes),
    /// It is told, and nothing was read since: all that came.
    Told(Terminal, Bytes),
    /// It is one file's bytes.
    File,
    /// The first line of a record is to end: what came of it.
    Line(Bytes),
    /// So many bytes of a file are to come, and behind them a line feed.
    Content(u64),
    /// The first line ended of a symbolic link whose target has so many bytes, at this path: nothing is made behind it.
    Link(u64, List<Bytes>),
    /// This line ended, which isn't the first line of a record that is made.
    Bad(Bytes),
    /// Behind a file's bytes stands this byte, and no line feed.
    Unended(u8),
}

/// A sink that makes a tree of the text of an answer as it comes: of a directory's bundle its folders and files, each as soon as its record
/// begins, and of a file's text that file. Which of the two the text is isn't seen from it, since a file may hold what looks like a bundle,
/// and is to be told by `tell`; until then the text is held, and it is read with the bytes that come next, or by `finish`.
///
/// A symbolic link isn't made. Its first line is taken, and stops it: each call behind that fails. So does a line that isn't the first line of
/// a record whose path has at most 128 names.
///
/// Contracts see the text that came, which is what was made says and what isn't read: `held` is that text. Once it was told, a file's bytes
/// aren't held in memory, and of a record its first line alone.
#[derive(Drop)]
pub struct Extract<T: NewTree> {
    alloc: Global,
    tree: T,
    stage: Stage,
    left: Bytes,
    left_at: usize,
    refused: Option<ExtractFault>,
    failed: u64,
    counts: Counts,
}

impl<T: NewTree> Model for Extract<T> {
    ghost use Rattle.tg_extract.specs.Counts.{counts_of};
    ghost use Rattle.tg_extract.specs.Extracts.{ExtractState, IsAtStage, IsStoppedAt};

    ghost Value = { ExtractState T };

    ghost use Rattle.std.specs.Prelude.{◌≡◌, IfSome, None, [], drop};

    ghost view = { λ e. record { tree = e.tree; stage = e.stage; unread = drop e.left_at e.left; refused = e.refused; faults = e.failed } };

    ghost invariant = { λ e. IsAtStage (T.new_tree.made e.tree) e.stage × (e.refused ≡ None → drop e.left_at e.left ≡ [])
        × IfSome e.refused (IsStoppedAt e.stage) × (e.counts ≡ counts_of (T.new_tree.made e.tree)) };
}

impl<T: NewTree + Drop> Extract<T> {
    /// An extract into this tree, which is to be begun.
    pub fn new(alloc: Global, tree: T) -> Extract<T>
        requires { T.new_tree.made tree ≡ [] }
        ensures tree { result.tree ≡ tree }
        ensures text { text_of T.new_tree result ≡ [] }
        ensures kind { kind_of result.stage ≡ None }
        ensures refused { result.refused ≡ None }
        ensures faults { result.faults ≡ 0 }
    {
        Extract {
            alloc,
            tree,
            stage: Stage::Waiting(Bytes::new(alloc)),
            left: Bytes::new(alloc),
            left_at: 0,
            refused: None,
            failed: 0,
            counts: Counts::new(),
        }
    }

    /// From now on what comes is made at a path of the system, at which nothing stands, and nothing came yet, nor did a call fail. The error is
    /// a fault of the tree, with which nothing changes.
    pub fn begin(&mut self, path: &str) -> Result<(), Failed>
        ensures at { OnOk result (BegunAt path.now (new_tree_step T.new_tree self.old.tree self.new.tree)) }
        ensures text { OnOk result (text_of T.new_tree self.new ≡ []) }
        ensures kind { OnOk result (kind_of self.new.stage ≡ None) }
        ensures refused { OnOk result (self.new.refused ≡ None) }
        // A begun extract has no fault counted.
        ensures faults { OnOk result (self.new.faults ≡ 0) }
        ensures quiet { OnOk result (NewTreeQuiet (new_tree_step T.new_tree self.old.tree self.new.tree)) }
        ensures err { OnErr result (NewTreeFailed (new_tree_step T.new_tree self.old.tree self.new.tree)) }
        ensures err_same { OnErr result (self.new ≡ record self.old { tree = self.new.tree }) }
    {
        self.tree.begin(path)?;
        self.stage = Stage::Waiting(Bytes::new(self.alloc));
        self.left = Bytes::new(self.alloc);
        self.left_at = 0;
        self.refused = None;
        self.failed = 0;
        self.counts = Counts::new();
        Ok(())
    }

    /// The tree. What was made in it, and how far the text was read, fit together.
    pub fn tree(&self) -> &T
        ensures tree { result.now ≡ self.now.tree }
        ensures at { IsAtStage (T.new_tree.made self.now.tree) self.now.stage }
    {
        &self.tree
    }

    /// Why it stopped.
    pub fn refusal(&self) -> Option<ExtractFault>
        ensures refused { result ≡ self.now.refused }
        ensures stopped { IfSome result (IsStoppedAt self.now.stage) }
    {
        self.refused
    }

    /// The path of the symbolic link that comes next, where one does: that of no names where the whole text is a link's target.
    pub fn link(&self) -> Option<&[Bytes]>
        ensures { MatchOption result (link_at self.now.stage ≡ None) (λ path. link_at self.now.stage ≡ Some path.now) }
    {
        match &self.stage {
            Stage::Link(_, path) => Some(path.as_slice()),
            Stage::Told(Terminal::Symlink, _) => Some(&[]),
            _ => None,
        }
    }

    /// How many files and folders were made, and how many bytes were added to the files.
    pub fn counts(&self) -> Counts
        ensures { result ≡ counts_of (T.new_tree.made self.now.tree) }
    {
        self.counts
    }

    /// Whether all that was read was made: the text was told to be one file's, or is a bundle in which no record is begun and not ended.
    pub fn is_whole(&self) -> bool
        ensures whole { IsTrue result ↔ IsWhole self.now.stage }
        ensures at { IsAtStage (T.new_tree.made self.now.tree) self.now.stage }
    {
        match &self.stage {
            Stage::File => true,
            Stage::Line(line) => line.as_slice().is_empty(),
            Stage::Waiting(_) | Stage::Told(..) | Stage::Content(_) => false,
            Stage::Link(..) | Stage::Bad(_) | Stage::Unended(_) => false,
        }
    }
}

impl<T: NewTree + Drop> Sink for Extract<T> {
    ghost sink = { record {
      held = λ e. Some (text_of T.new_tree e);
      faults = λ e. e.faults;
      calls = λ _. None;
      wrote = λ a b bytes. Extracts T.new_tree a b bytes;
    } };

    ghost rests = { λ e. extract_rests T.new_tree e };

    ghost joins = { λ a b c u v. extract_joins T.new_tree a b c u v };

    /// Reads what is held where it is told what it is of, and then up to the end of a first line, of a file's bytes, or of the bytes that came.
    /// It fails once and for all where the tree failed, behind what isn't made, and for want of memory; `refusal` tells which.
    fn put(&mut self, bytes: &[u8]) -> Result<usize, Failed>
        ensures within { IfOk result (λ n. n ≤ length bytes.now) }
        ensures moves { IfOk result (λ n. 0 < length bytes.now → 0 < n) }
        ensures put { IfOk result (λ n. Put (take n bytes.now) (into (extract_sink T.new_tree) self.old self.new)) }
        ensures quiet { OnOk result (OutputQuiet (into (extract_sink T.new_tree) self.old self.new)) }
        ensures err_unput { OnErr result (Unput (into (extract_sink T.new_tree) self.old self.new)) }
        ensures err_rose { OnErr result (OutputRose (into (extract_sink T.new_tree) self.old self.new)) }
        ensures err_counted { OnErr result (self.old.faults ≤ self.new.faults) }

        // What stands behind an error, and when one comes.
        ensures ok { OnOk result (self.new.refused ≡ None) }
        ensures read { OnOk result (IsRead self.new.stage) }
        ensures stuck { IsStuck self.old.stage → IsErr result }
        ensures cause { self.old.refused ≡ None → OnErr result (IsSomeAnd self.new.refused
            (HasCause self.new.stage (new_tree_step T.new_tree self.old.tree self.new.tree))) }
        ensures again { (fault : ExtractFault) → self.old.refused ≡ Some fault
            → IsErr result × (self.new ≡ record self.old { faults = self.new.faults }) }
    {
        if self.refused.is_some() {
            return Err(self.fault());
        }
        self.read_held()?;
        match self.read(bytes) {
            Ok(n) => Ok(n),
            Err(fault) => Err(self.stop(fault)),
        }
    }
}

impl<T: NewTree + Drop> Extract<T> {
    /// Says what the text is of, where it wasn't told yet. Nothing is read or made; what was told before stays.
    pub fn tell(&mut self, terminal: Terminal)
        ensures told { kind_of self.old.stage ≡ None → kind_of self.new.stage ≡ Some terminal }
        ensures stays { IfSome (kind_of self.old.stage) (λ _. self.new ≡ self.old) }
        ensures text { text_of T.new_tree self.new ≡ text_of T.new_tree self.old }
        ensures rest { self.new ≡ record self.old { stage = self.new.stage } }
    {
        if let Stage::Waiting(held) = &mut self.stage {
            let held = replace(held, Bytes::new(self.alloc));
            self.stage = Stage::Told(terminal, held);
        }
    }

    /// Reads what is held, where it was told what the text is of: a text that is told to be a file's makes that file, though nothing came of
    /// it. It fails where `put` would, also behind what isn't made. The error is one of `put`.
    pub fn finish(&mut self) -> Result<(), Failed>
        ensures text { Extracts T.new_tree self.old self.new [] }
        ensures quiet { OnOk result ((self.new.refused ≡ None) × (self.new.faults ≡ self.old.faults)) }
        ensures read { OnOk result (IsRead self.new.stage) }
        ensures going { OnOk result (IsStuck self.new.stage → ⊥) }
        ensures all { OnOk result (self.new.unread ≡ []) }
        ensures at { IsAtStage (T.new_tree.made self.new.tree) self.new.stage }
        ensures stopped { IfSome self.new.refused (IsStoppedAt self.new.stage) }
        ensures rose { OnErr result (Rose self.old.faults self.new.faults) }
        ensures cause { self.old.refused ≡ None → OnErr result (IsSomeAnd self.new.refused
            (HasCause self.new.stage (new_tree_step T.new_tree self.old.tree self.new.tree))) }
        ensures again { (fault : ExtractFault) → self.old.refused ≡ Some fault
            → IsErr result × (self.new ≡ record self.old { faults = self.new.faults }) }
    {
        if self.refused.is_some() {
            return Err(self.fault());
        }
        self.read_held()?;
        match stop_at(&self.stage) {
            None => Ok(()),
            Some(fault) => Err(self.stop(fault)),
        }
    }

    /// Reads what is held where it is told what it is of, and nothing stopped it. The error is one of `put`.
    fn read_held(&mut self) -> Result<(), Failed>
        requires { self.old.refused ≡ None }
        ensures text { Extracts T.new_tree self.old self.new [] }
        ensures quiet { OnOk result ((self.new.refused ≡ None) × (self.new.faults ≡ self.old.faults)) }
        ensures read { OnOk result (IsRead self.new.stage) }
        ensures same { IsRead self.old.stage → self.new ≡ self.old }
        ensures stuck { IsStuck self.old.stage → OnOk result (IsStuck self.new.stage) }
        ensures err_at { OnErr result (IsAtStage (T.new_tree.made self.new.tree) self.new.stage) }
        ensures rose { OnErr result (Rose self.old.faults self.new.faults) }
        ensures counted { self.old.faults ≤ self.new.faults }
        ensures cause { OnErr result (IsSomeAnd self.new.refused
            (HasCause self.new.stage (new_tree_step T.new_tree self.old.tree self.new.tree))) }
    {
        let Stage::Told(terminal, held) = &mut self.stage else {
            return Ok(());
        };
        let begun = match terminal {
            Terminal::Symlink => return Err(self.stop(ExtractFault::NotPlain)),
            Terminal::File => {
                if let Err(Failed) = self.tree.make_file(&[]) {
                    return Err(self.stop(ExtractFault::Tree));
                }
                self.counts.file();
                Stage::File
            }
            Terminal::Directory => Stage::Line(Bytes::new(self.alloc)),
        };
        let held = replace(held, Bytes::new(self.alloc));
        self.stage = begun;
        self.put_held(held)
    }

    /// Reads all of these bytes, where nothing stopped it; those that aren't read, since it stops, are left. The error is one of `put`.
    fn put_held(&mut self, bytes: Bytes) -> Result<(), Failed>
        requires refused { self.old.refused ≡ None }
        requires read { IsRead self.old.stage }
        ensures put { Extracts T.new_tree self.old self.new bytes }
        ensures read { IsRead self.new.stage }
        ensures quiet { OnOk result ((self.new.refused ≡ None) × (self.new.faults ≡ self.old.faults)) }
        ensures err_at { OnErr result (IsAtStage (T.new_tree.made self.new.tree) self.new.stage) }
        ensures rose { OnErr result (Rose self.old.faults self.new.faults) }
        ensures counted { self.old.faults ≤ self.new.faults }
        ensures cause { OnErr result (IsSomeAnd self.new.refused
            (HasCause self.new.stage (new_tree_step T.new_tree self.old.tree self.new.tree))) }
    {
        let mut at = 0;
        while at < bytes.as_slice().len() {
            match self.read(&bytes.as_slice()[at..]) {
                Ok(n) => at += n,
                Err(fault) => {
                    let failed = self.stop(fault);
                    self.left = bytes;
                    self.left_at = at;
                    return Err(failed);
                }
            }
        }
        Ok(())
    }

    /// Counts a call that failed.
    fn fault(&mut self) -> Failed
        ensures rest { self.new ≡ record self.old { faults = self.new.faults } }
        ensures rose { Rose self.old.faults self.new.faults }
        ensures counted { self.old.faults ≤ self.new.faults }
    {
        self.failed = self.failed.saturating_add(1);
        Failed
    }

    /// Stops for this fault, and counts a call that failed.
    fn stop(&mut self, fault: ExtractFault) -> Failed
        requires { IsStoppedAt self.old.stage fault }
        ensures rest { self.new ≡ record self.old { faults = self.new.faults; refused = Some fault } }
        ensures rose { Rose self.old.faults self.new.faults }
        ensures counted { self.old.faults ≤ self.new.faults }
    {
        self.refused = Some(fault);
        self.fault()
    }

    /// Reads a front of the bytes, where nothing stopped it. With an error what was made, the stage and the place stay.
    fn read(&mut self, bytes: &[u8]) -> Result<usize, ExtractFault>
        requires refused { self.old.refused ≡ None }
        requires read { IsRead self.old.stage }
        ensures within { IfOk result (λ n. n ≤ length bytes.now) }
        ensures moves { IfOk result (λ n. 0 < length bytes.now → 0 < n) }
        ensures read { IfOk result (λ n. Extracts T.new_tree self.old self.new (take n bytes.now)) }
        ensures rest { (self.new.refused ≡ None) × (self.new.faults ≡ self.old.faults) }
        ensures is_read { IsRead self.new.stage }
        ensures none_left { (self.old.unread ≡ []) × (self.new.unread ≡ []) }
        ensures going { OnOk result (IsStuck self.old.stage → ⊥) }
        ensures err_same { OnErr result (SameTree (new_tree_step T.new_tree self.old.tree self.new.tree)) }
        ensures err_stage { OnErr result (self.new.stage ≡ self.old.stage) }
        ensures cause { IfErr result (HasCause self.new.stage (new_tree_step T.new_tree self.old.tree self.new.tree)) }
    {
        match &mut self.stage {
            Stage::Waiting(held) => {
                held.push_all(bytes)?;
                Ok(bytes.len())
            }
            // What is held was read.
            Stage::Told(..) => Ok(0),
            Stage::File => {
                let n = self.tree.add(bytes)?;
                self.counts.add(n);
                Ok(n)
            }
            Stage::Line(line) => match line_end(bytes) {
                None => {
                    line.push_all(bytes)?;
                    Ok(bytes.len())
                }
                Some(front) => {
                    let ended = joined(self.alloc, line.as_slice(), front)?;
                    self.stage = end_line(self.alloc, &mut self.tree, &mut self.counts, ended)?;
                    Ok(front.len() + 1)
                }
            },
            Stage::Content(0) => match bytes.first() {
                None => Ok(0),
                Some(&LINE_FEED) => {
                    self.stage = Stage::Line(Bytes::new(self.alloc));
                    Ok(1)
                }
                Some(other) => {
                    self.stage = Stage::Unended(*other);
                    Ok(1)
                }
            },
            Stage::Content(left) => {
                let n = add_most(&mut self.tree, bytes, *left)?;
                *left -= n as u64;
                self.counts.add(n);
                Ok(n)
            }
            Stage::Link(..) => Err(ExtractFault::NotPlain),
            Stage::Bad(_) | Stage::Unended(_) => Err(ExtractFault::BadText),
        }
    }
}

/// Why nothing goes on at a stage, where nothing does.
fn stop_at(stage: &Stage) -> Option<ExtractFault>
    ensures none { result ≡ None → IsStuck stage.now → ⊥ }
    ensures some { IfSome result (IsStoppedAt stage.now) }
    ensures which { IfSome result (λ fault. fault ≢ ExtractFault.Tree) }
{
    match stage {
        Stage::Link(..) | Stage::Told(Terminal::Symlink, _) => Some(ExtractFault::NotPlain),
        Stage::Bad(_) | Stage::Unended(_) => Some(ExtractFault::BadText),
        _ => None,
    }
}

/// What stands before the first end of a line, where there is one.
fn line_end(bytes: &[u8]) -> Option<&[u8]>
    ensures { MatchOption result (All (λ b. b ≢ line_feed) bytes.now) (λ front. EndsLine bytes.now front.now) }
{
    tg_query::path_laws::cuts_read();
    let (front, rest) = cut_first(bytes, LINE_FEED);
    match rest {
        Some(_) => Some(front),
        None => None,
    }
}

/// Adds a front of the bytes to the file that was made last, at most so many and at least one where there is one. The error is a fault of the
/// tree.
fn add_most<T: NewTree>(tree: &mut T, bytes: &[u8], most: u64) -> Result<usize, Failed>
    requires { 0 < most }
    ensures within { IfOk result (λ n. (n ≤ length bytes.now) × (n ≤ most)) }
    ensures moves { IfOk result (λ n. 0 < length bytes.now → 0 < n) }
    ensures added { IfOk result (λ n. AddedTo (take n bytes.now) (new_tree_step T.new_tree tree.old tree.new)) }
    ensures quiet { OnOk result (NewTreeQuiet (new_tree_step T.new_tree tree.old tree.new)) }
    ensures err { OnErr result (NewTreeFailed (new_tree_step T.new_tree tree.old tree.new)) }
{
    let most = bytes.len().min(most as usize);
    tree.add(&bytes[..most])
}

/// Makes what a line without its end says as the first line of a record, and tells what is to come then: behind a symbolic link's, and behind
/// another line than a record's first one, nothing. Errors: `Tree`, with which nothing was made; `OutOfMemory`.
fn end_line<T: NewTree>(
    alloc: Global,
    tree: &mut T,
    counts: &mut Counts,
    text: Bytes,
) -> Result<Stage, ExtractFault>
    requires { counts.old ≡ counts_of (T.new_tree.made tree.old) }
    ensures made { IfOk result (HasMadeText text (T.new_tree.made tree.old) (T.new_tree.made tree.new)) }
    ensures counts { counts.new ≡ counts_of (T.new_tree.made tree.new) }
    ensures place { T.new_tree.place tree.new ≡ T.new_tree.place tree.old }
    ensures quiet { OnOk result (NewTreeQuiet (new_tree_step T.new_tree tree.old tree.new)) }
    ensures err_made { OnErr result (T.new_tree.made tree.new ≡ T.new_tree.made tree.old) }
    ensures err { IfErr result (IsMakeCause (new_tree_step T.new_tree tree.old tree.new)) }
{
    match parse_line(alloc, text.as_slice()) {
        Ok(line) => make(alloc, tree, counts, line),
        Err(ExtractFault::BadText) => Ok(Stage::Bad(ended(text)?)),
        Err(fault) => Err(fault),
    }
}

/// A line with its end. The error is want of memory.
fn ended(line: Bytes) -> Result<Bytes, AllocError>
    ensures { IfOk result (λ whole. whole ≡ line ++ line_feed ∷ []) }
{
    let mut line = line;
    line.push_all(b"\n")?;
    Ok(line)
}

/// Makes what the first line of a record says, and tells what is to come then. The error is a fault of the tree.
fn make<T: NewTree>(
    alloc: Global,
    tree: &mut T,
    counts: &mut Counts,
    line: Line,
) -> Result<Stage, ExtractFault>
    requires { counts.old ≡ counts_of (T.new_tree.made tree.old) }
    ensures made { IfOk result (HasMadeLine line (T.new_tree.made tree.old) (T.new_tree.made tree.new)) }
    ensures counts { counts.new ≡ counts_of (T.new_tree.made tree.new) }
    ensures place { T.new_tree.place tree.new ≡ T.new_tree.place tree.old }
    ensures quiet { OnOk result (NewTreeQuiet (new_tree_step T.new_tree tree.old tree.new)) }
    ensures err_made { OnErr result (T.new_tree.made tree.new ≡ T.new_tree.made tree.old) }
    ensures err { IfErr result (IsMakeCause (new_tree_step T.new_tree tree.old tree.new)) }
{
    match line {
        Line::Folder(path) => {
            tree.make_folder(path.as_slice())?;
            counts.folder();
            Ok(Stage::Line(Bytes::new(alloc)))
        }
        Line::File(size, path) => {
            tree.make_file(path.as_slice())?;
            counts.file();
            Ok(Stage::Content(size))
        }
        Line::Link(size, path) => Ok(Stage::Link(size, path)),
    }
}

/// Bytes, and more bytes behind them. The error is want of memory.
fn joined(alloc: Global, bytes: &[u8], more: &[u8]) -> Result<Bytes, AllocError>
    ensures { IfOk result (λ both. both ≡ bytes.now ++ more.now) }
{
    let mut both = Bytes::of(alloc, bytes)?;
    both.push_all(more)?;
    Ok(both)
}
