//! `export`.
ghost use Rattle.std.specs.Prelude.{◌≡◌, IsSome, Some};
ghost use Rattle.tg_commands.specs.Exports.{ExportAnswers, IsExportRefusal, ShowsOrWants, store_refusal};
ghost use Rattle.tg_commands.specs.Lines.{end_of};
ghost use Rattle.tg_commands.specs.Files.{given_back};
ghost use Rattle.tg_commands.specs.Exports.{pack_refusal};
ghost use Rattle.tg_files.specs.Packs.{pack_step};
ghost use Rattle.tg_streams.specs.Streams.{into};

use crate::fault::CommandFault;
use std::alloc::Global;
use tg_cid::Cid;
use tg_export::ExportFault;
use tg_files::Pack;
use tg_model::{BlockFault, BlocksFault};
use tg_store::PackFault;
use tg_streams::Sink;
use tg_walk::{ResolveFault, WalkFault};
use tg_words::Export;

/// `export`: the CAR of what is asked for goes from the pack to out. The pack is there, and is given back.
pub fn export<P: Pack, O: Sink>(
    alloc: Global,
    asked: &Export,
    pack: &mut Option<P>,
    out: &mut O,
) -> Result<(), CommandFault>
    requires { IsSome pack.old }
    ensures back { IsSome pack.new }
    ensures ends { ExportAnswers asked.now.pack asked.now.query (given_back P.pack pack.old pack.new)
        (pack.new ≡ pack.old) (into O.sink out.old out.new) (end_of result) }
{
    let Some(attached) = pack.take() else {
        unreachable!()
    };
    let (back, end) = export_from(alloc, asked, attached, out);
    match pack.replace(back) {
        None => end,
        Some(_other) => unreachable!(),
    }
}

/// `export` from a pack that is handed in and given back.
fn export_from<P: Pack, O: Sink>(
    alloc: Global,
    asked: &Export,
    pack: P,
    out: &mut O,
) -> (P, Result<(), CommandFault>)
    ensures { ExportAnswers asked.now.pack asked.now.query (pack_step P.pack pack result.0) (Some result.0 ≡ Some pack)
        (into O.sink out.old out.new) (end_of result.1) }
{
    let mut pack = pack;
    let Ok(()) = pack.attach(asked.pack.as_str(), false) else {
        return (pack, Err(CommandFault::PackFault));
    };
    let (pack, end) = tg_export::export(alloc, &asked.query, pack, out);
    match end {
        Ok(()) => (pack, Ok(())),
        Err(fault) => (pack, Err(refusal_of(alloc, fault))),
    }
}

/// The refusal for the fault of an export.
fn refusal_of(alloc: Global, fault: ExportFault) -> CommandFault
    ensures { IsExportRefusal fault result }
{
    match fault {
        ExportFault::Pack(fault) => refusal_of_pack(fault),
        ExportFault::Resolve(fault) => refusal_of_path(alloc, fault),
        ExportFault::Walk(fault) => refusal_of_walk(alloc, fault),
        ExportFault::SinkFault => CommandFault::SinkFault,
        ExportFault::OutOfMemory => CommandFault::OutOfMemory,
    }
}

/// The refusal for a pack that can't be attached.
pub fn refusal_of_pack(fault: PackFault) -> CommandFault
    ensures export { IsExportRefusal (ExportFault.Pack fault) result }
    ensures exact { result ≡ pack_refusal fault }
{
    match fault {
        PackFault::NotCar { at } => CommandFault::NotCar { at },
        PackFault::BadDigest { at } => CommandFault::BadPack { at },
        PackFault::Unfinished => CommandFault::Unfinished,
        PackFault::Truncated { at } => CommandFault::TornPack { at },
        PackFault::Failed => CommandFault::PackFault,
        PackFault::BlockLimit { at } => CommandFault::PackLimit { at },
        PackFault::OutOfMemory => CommandFault::OutOfMemory,
    }
}

/// The refusal for a path that doesn't lead to a stored block.
fn refusal_of_path(alloc: Global, fault: ResolveFault) -> CommandFault
    ensures { IsExportRefusal (ExportFault.Resolve fault) result }
{
    match fault {
        ResolveFault::NoRoot => CommandFault::NoRoot,
        ResolveFault::NotThere { segment } => CommandFault::NotThere { segment },
        ResolveFault::NotFolder { segment } => CommandFault::NotFolder { segment },
        ResolveFault::BadBlock { cid, fault } => bad_stored(alloc, &cid, fault),
        ResolveFault::Gone { cid } => gone(alloc, &cid),
        ResolveFault::Store(fault) => refusal_of_store(fault),
        ResolveFault::OutOfMemory => CommandFault::OutOfMemory,
    }
}

/// The refusal for a walk that ended before the last block.
fn refusal_of_walk(alloc: Global, fault: WalkFault) -> CommandFault
    ensures { IsExportRefusal (ExportFault.Walk fault) result }
{
    match fault {
        WalkFault::BadBlock { cid, fault } => bad_stored(alloc, &cid, fault),
        WalkFault::Gone { cid } => gone(alloc, &cid),
        WalkFault::TooDeep => CommandFault::TooDeep,
        WalkFault::Store(fault) => refusal_of_store(fault),
        WalkFault::NotThere { segment } => CommandFault::NotThere { segment },
        WalkFault::NotFolder { segment } => CommandFault::NotFolder { segment },
        WalkFault::OutOfMemory => CommandFault::OutOfMemory,
    }
}

/// The refusal for a fault of the store.
fn refusal_of_store(fault: BlocksFault) -> CommandFault
    ensures { result ≡ store_refusal fault }
{
    match fault {
        BlocksFault::Changed { .. } => CommandFault::Changed,
        BlocksFault::Failed => CommandFault::PackFault,
        BlocksFault::OutOfMemory => CommandFault::OutOfMemory,
    }
}

/// The refusal for a stored block without a kind, or for want of memory for its CID's text.
fn bad_stored(alloc: Global, cid: &Cid, fault: BlockFault) -> CommandFault
    ensures { ShowsOrWants (λ text. CommandFault.BadStored text fault) cid.now result }
{
    match cid.to_text(alloc) {
        Ok(cid) => CommandFault::BadStored { cid, fault },
        Err(_) => CommandFault::OutOfMemory,
    }
}

/// The refusal for a block that isn't stored, or for want of memory for its CID's text.
fn gone(alloc: Global, cid: &Cid) -> CommandFault
    ensures { ShowsOrWants CommandFault.Gone cid.now result }
{
    match cid.to_text(alloc) {
        Ok(cid) => CommandFault::Gone { cid },
        Err(_) => CommandFault::OutOfMemory,
    }
}
