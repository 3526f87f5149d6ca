//! `import`.
ghost use Rattle.std.specs.Prelude.{◌≡◌, ◌++◌, IfOk, IsSome, OnErr, OnOk, Some, codes, decimal};
ghost use Rattle.tg_commands.specs.Imports.{AttachedAnswers, HasText, ImportAnswers, ImportLines, IsImportRefusal, LinesEnd};
ghost use Rattle.tg_commands.specs.Imports.{options_of, path_text, refusal_of_import};
ghost use Rattle.tg_commands.specs.Lines.{end_of};
ghost use Rattle.tg_commands.specs.Files.{Files, files_between};
ghost use Rattle.tg_files.specs.Folders.{TellsFolder};
ghost use Rattle.tg_import.specs.Imported.{AreOptions};
ghost use Rattle.tg_model.specs.Texts.{escaped};
ghost use Rattle.tg_streams.specs.Streams.{into};

use crate::fault::CommandFault;
use itoa::Buffer;
use std::alloc::{AllocError, Global};
use tg_bytes::Bytes;
use tg_cid::Cid;
use tg_escape::push_escaped;
use tg_files::{Folder, Pack};
use tg_import::{ImportFault, Options, Summary, import_pack};
use tg_streams::{Sink, put_all};
use tg_words::Import;

/// `import`: the folder goes into the pack, which is made anew, and out tells its root and what it holds. The pack is
/// there, and is given back.
pub fn import<F: Folder, P: Pack, O: Sink>(
    alloc: Global,
    asked: &Import,
    folder: &mut F,
    pack: &mut Option<P>,
    out: &mut O,
) -> Result<(), CommandFault>
    requires there { IsSome pack.old }
    requires options { AreOptions (options_of asked.now) }
    ensures back { IsSome pack.new }
    ensures ends { ImportAnswers asked.now (files_between F.folder P.pack folder.old folder.new pack.old pack.new)
        (into O.sink out.old out.new) (end_of result) }
{
    let Ok(()) = folder.attach(asked.folder.as_str()) else {
        return Err(CommandFault::FolderFault);
    };
    let Some(attached) = pack.take() else {
        unreachable!()
    };
    let (back, end) = import_into(alloc, asked, folder, attached, out);
    match pack.replace(back) {
        None => end,
        Some(_other) => unreachable!(),
    }
}

/// `import` of an attached folder into a pack that is handed in and given back.
fn import_into<F: Folder, P: Pack, O: Sink>(
    alloc: Global,
    asked: &Import,
    folder: &mut F,
    pack: P,
    out: &mut O,
) -> (P, Result<(), CommandFault>)
    requires options { AreOptions (options_of asked.now) }
    requires tells { TellsFolder (F.folder.tree folder.old) }
    requires at { F.folder.place folder.old ≡ Some asked.now.folder }
    ensures { AttachedAnswers asked.now (files_between F.folder P.pack folder.old folder.new (Some pack)
        (Some result.0))
        (into O.sink out.old out.new) (end_of result.1) }
{
    let mut pack = pack;
    let Ok(()) = pack.attach(asked.pack.as_str(), true) else {
        return (pack, Err(CommandFault::PackFault));
    };
    let options = Options {
        chunk: asked.chunk,
        width: asked.width,
        shard: asked.shard,
    };
    let (pack, end) = import_pack(alloc, folder, pack, options);
    match end {
        Ok(made) => (pack, put_lines(alloc, &made.0, &made.1, out)),
        Err(fault) => (pack, Err(refusal_of_import(alloc, fault))),
    }
}

/// Puts the root's text and the summary, each on a line.
fn put_lines<O: Sink>(
    alloc: Global,
    root: &Cid,
    summary: &Summary,
    out: &mut O,
) -> Result<(), CommandFault>
    ensures { LinesEnd root.now summary.now (into O.sink out.old out.new) (end_of result) }
{
    let text = lines(alloc, root, summary)?;
    match put_all(out, text.as_slice()) {
        Ok(()) => Ok(()),
        Err(_) => Err(CommandFault::SinkFault),
    }
}

/// The root's text and the summary, each on a line. The error is want of memory.
fn lines(alloc: Global, root: &Cid, summary: &Summary) -> Result<Bytes, AllocError>
    ensures { IfOk result (λ text. ImportLines root.now summary.now text) }
{
    let mut text = root.to_text(alloc)?;
    push_number(&mut text, b"\nfiles ", summary.files)?;
    push_number(&mut text, b" folders ", summary.folders)?;
    push_number(&mut text, b" shards ", summary.shards)?;
    push_number(&mut text, b" bytes ", summary.bytes)?;
    text.push_all(b"\n")?;
    Ok(text)
}

/// Adds a label and a number to a text. The error is want of memory.
pub fn push_number(text: &mut Bytes, label: &[u8], number: u64) -> Result<(), AllocError>
    ensures { OnOk result (text.new ≡ text.old ++ (label.now ++ decimal number)) }
{
    text.push_all(label)?;
    text.push_all(Buffer::new().format(number).as_bytes())
}

/// The refusal for the fault of an import.
pub fn refusal_of_import(alloc: Global, fault: ImportFault) -> CommandFault
    ensures { IsImportRefusal fault result }
{
    match refusal_in(alloc, fault) {
        Ok(refusal) => refusal,
        Err(_) => CommandFault::OutOfMemory,
    }
}

/// The refusal for the fault of an import, with the text of its path or of its names, for which memory may be wanted.
fn refusal_in(alloc: Global, fault: ImportFault) -> Result<CommandFault, AllocError>
    ensures ok { IfOk result (λ refusal. refusal ≡ refusal_of_import fault) }
    ensures err { OnErr result (HasText fault) }
{
    Ok(match fault {
        ImportFault::Folder => CommandFault::FolderFault,
        ImportFault::Keep => CommandFault::PackFault,
        ImportFault::TooDeep { path } => CommandFault::DeepFolder {
            path: path_text(alloc, path.as_slice())?,
        },
        ImportFault::BadName { path } => CommandFault::BadName {
            path: path_text(alloc, path.as_slice())?,
        },
        ImportFault::LongName { path } => CommandFault::LongName {
            path: path_text(alloc, path.as_slice())?,
        },
        ImportFault::SameHash { first, second } => CommandFault::SameHash {
            names: both_escaped(alloc, &first, &second)?,
        },
        ImportFault::NotPlain { path } => CommandFault::NotPlain {
            path: path_text(alloc, path.as_slice())?,
        },
        ImportFault::TooBig { path } => CommandFault::TooBig {
            path: path_text(alloc, path.as_slice())?,
        },
        ImportFault::OutOfMemory => CommandFault::OutOfMemory,
    })
}

/// Two names in percent-encoding with a space between them. The error is want of memory.
fn both_escaped(alloc: Global, first: &Bytes, second: &Bytes) -> Result<Bytes, AllocError>
    ensures { IfOk result (λ text. text ≡ escaped first.now ++ (codes " " ++ escaped second.now)) }
{
    let mut text = Bytes::new(alloc);
    push_escaped(&mut text, alloc, first.as_slice())?;
    text.push_all(b" ")?;
    push_escaped(&mut text, alloc, second.as_slice())?;
    Ok(text)
}

/// A path as a line shows it: its segments in percent-encoding with slashes between them. The error is want of memory.
pub fn path_text(alloc: Global, path: &[Bytes]) -> Result<Bytes, AllocError>
    ensures { IfOk result (λ text. text ≡ path_text path.now) }
{
    let mut text = Bytes::new(alloc);
    let Some((first, rest)) = path.split_first() else {
        return Ok(text);
    };
    push_escaped(&mut text, alloc, first.as_slice())?;
    for name in rest {
        text.push_all(b"/")?;
        push_escaped(&mut text, alloc, name.as_slice())?;
    }
    Ok(text)
}
