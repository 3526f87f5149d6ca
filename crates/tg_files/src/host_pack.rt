//! Packs that are files of the system.
ghost use Rattle.std.specs.Prelude.{◌≡◌, ◌≤◌, ◌++◌, None, Some, false, true, take, IfSome, OnOk, OnErr, refl};
ghost use Rattle.std.specs.Result.{result_ok};
ghost use Rattle.std.specs.IoError.{error_kind};
ghost use Rattle.std.proofs.Common.{◌∙◌, ap};
ghost use Rattle.tg_faults.specs.Faults.{Rose};
ghost use Rattle.tg_files.specs.Packs.{placed, placed-append};
ghost use Rattle.tg_files.specs.Readers.{StandsTo};

use crate::draft;
use crate::draft::{Draft, check_is_file};
use crate::packs::Pack;
use crate::place::{Place, Target};
use crate::reading::read_from;
use crate::temp_names::TempNames;
use std::fs::{File, OpenFile};
use std::io::{ErrorKind, Seek, SeekFrom, Write};
use std::rt::Files;
use std::{fs, io};
use tg_faults::Failed;

/// A pack that is a file of the system, which stays open from one `attach` to the next. Its bytes aren't told.
///
/// Every call before it is attached is a fault. A fresh pack is open for reading and writing, and one that isn't fresh
/// for reading alone: each write to it is a fault.
///
/// A fresh pack is written into a file beside the one at its path, under a name of `TempNames`, and the first `write_at`
/// that is done puts it there, so that at its path there is what was there before, or all that was written. Where none is
/// done before the pack is dropped or attached anew, that file is removed, and what was there stays. A program that is
/// killed leaves it.
#[derive(Drop)]
pub struct HostPack<R: Files + Drop> {
    rt: R,
    names: TempNames,
    opened: Option<Opened<R>>,
    /// Whether the file stands at its end, as it does where the last call that moved it was an `append`.
    is_at_end: bool,
    place: Place,
    failed: u64,
}

/// The file that is read and written, and, of a fresh pack, where it stands.
#[derive(Drop)]
struct Opened<R: Files + Drop> {
    file: R::File,
    draft: Option<Draft<R>>,
}

impl<R: Files + Drop> HostPack<R> {
    /// A pack that is attached to nothing yet, with no fault counted; a fresh one is written under one of these names.
    pub fn new(rt: R, names: TempNames) -> HostPack<R>
        ensures { result ≡ record {
          rt = rt;
          names = names;
          opened = None;
          is_at_end = false;
          place = record
              { at = None };
          failed = 0;
        } }
    {
        HostPack {
            rt,
            names,
            opened: None,
            is_at_end: false,
            place: Place::nowhere(),
            failed: 0,
        }
    }

    /// How many calls failed.
    pub fn count(&self) -> u64
        ensures { result ≡ self.now.failed }
    {
        self.failed
    }

    /// What a call came to, whose error is counted.
    fn counted<T>(&mut self, done: io::Result<T>) -> Result<T, Failed>
        ensures same { result_ok result ≡ result_ok done }
        ensures quiet { OnOk result (self.new.failed ≡ self.old.failed) }
        ensures err_rose { OnErr result (Rose self.old.failed self.new.failed) }
        ensures err_counted { OnErr result (self.old.failed ≤ self.new.failed) }
        ensures place { self.new.place ≡ self.old.place }
    {
        match done {
            Ok(value) => Ok(value),
            Err(_) => {
                self.failed = self.failed.saturating_add(1);
                Err(Failed)
            }
        }
    }
}

impl<R: Files + AllocGlobal + Clone + Drop> Pack for HostPack<R> {
    ghost pack = { record {
      content = λ _. None;
      place = λ p. p.place.at;
      faults = λ p. p.failed;
      calls = λ _. None;
      did = λ a b writes. b.place.at ≡ placed a.place.at writes;
    } };

    ghost rests = { λ _. refl };

    ghost joins = { λ a b c u v p q. q ∙ ap (λ place. placed place v) p ∙ placed-append a.place.at u v };

    /// A fresh one is made beside the one that is there, which may be written, and whose permissions it has; else there is
    /// one, or it is a fault. What isn't a file is a fault. The symbolic links at the path are followed.
    fn attach(&mut self, path: &str, fresh: bool) -> Result<(), Failed> {
        let opened = open_pack(&self.rt, self.names, path, fresh);
        self.opened = Some(self.counted(opened)?);
        self.is_at_end = fresh;
        self.place = Place::of(&Target { path, fresh });
        Ok(())
    }

    /// The length that the system gives.
    fn size(&mut self) -> Result<u64, Failed> {
        let size = match &self.opened {
            Some(opened) => size_of(&opened.file),
            None => Err(unattached()),
        };
        self.counted(size)
    }

    /// One read, begun anew where it is interrupted. An offset of 2 ^ 63 or more is a fault.
    fn read_at(&mut self, offset: u64, buf: &mut [u8]) -> Result<usize, Failed> {
        self.is_at_end = false;
        let read = match &mut self.opened {
            Some(opened) => read_from(&mut opened.file, offset, buf),
            None => Err(unattached()),
        };
        self.counted(read)
    }

    /// As many writes as it takes; then all that was written is made to last, so that a write of before which the
    /// system finds failed only now is a fault of this call; and then a fresh pack is put at its path.
    fn write_at(&mut self, offset: u64, bytes: &[u8]) -> Result<(), Failed> {
        self.is_at_end = false;
        let written = match &mut self.opened {
            Some(opened) => opened.finish(offset, bytes),
            None => Err(unattached()),
        };
        self.counted(written)
    }

    /// As many writes as it takes. The end is sought where the last call wasn't an `append` that was done.
    fn append(&mut self, bytes: &[u8]) -> Result<(), Failed> {
        let written = match &mut self.opened {
            Some(opened) if self.is_at_end => opened.file.write_all(bytes),
            Some(opened) => append_to(&mut opened.file, bytes),
            None => Err(unattached()),
        };
        self.is_at_end = written.is_ok();
        self.counted(written)
    }
}

/// Opens a file to be read alone, or makes one beside it to be read and written. What is to be read alone is looked at
/// before it is opened too, since an open of a named pipe waits for its writer.
fn open_pack<R: Files + AllocGlobal + Clone + Drop>(
    rt: &R,
    names: TempNames,
    path: &str,
    fresh: bool,
) -> io::Result<Opened<R>> {
    if fresh {
        let (file, draft) = draft::create(rt, names, path)?;
        return Ok(Opened {
            file,
            draft: Some(draft),
        });
    }
    check_is_file(&fs::metadata(rt, path)?)?;
    let file = File::open(rt, path)?;
    check_is_file(&file.metadata()?)?;
    Ok(Opened { file, draft: None })
}

impl<R: Files + Drop> Opened<R> {
    /// Writes all of the bytes from an offset on, makes all that was written last, and puts the file in its place.
    fn finish(&mut self, offset: u64, bytes: &[u8]) -> io::Result<()>
        ensures put { OnOk result (IfSome self.new.draft (λ draft. draft.is_put ≡ true)) }
        ensures err_same { OnErr result (self.new.draft ≡ self.old.draft) }
        // A file that tells its bytes.
        ensures told { ((s : R.File) → StandsTo (R.File.Seek.stream_position s) (R.File.Seek.stream_bytes s)
            (R.File.Write.contents s)) → OnOk result (IfSome (R.File.Seek.stream_bytes self.old.file)
            (λ held. R.File.Write.contents self.new.file ≡ Some (take offset held ++ bytes.now))) }
    {
        write_to_last(&mut self.file, offset, bytes)?;
        match &mut self.draft {
            Some(draft) => draft.put(),
            None => Ok(()),
        }
    }
}

/// The length that the system gives.
fn size_of<F: OpenFile>(file: &F) -> io::Result<u64> {
    Ok(file.metadata()?.len())
}

/// Writes all of the bytes from an offset on.
fn write_from<F: Write + Seek>(file: &mut F, offset: u64, bytes: &[u8]) -> io::Result<()>
    // A writer that tells its bytes.
    ensures told { ((s : F) → StandsTo (F.Seek.stream_position s) (F.Seek.stream_bytes s) (F.Write.contents s))
        → OnOk result (IfSome (F.Seek.stream_bytes file.old)
        (λ held. F.Write.contents file.new ≡ Some (take offset held ++ bytes.now))) }
{
    file.seek(SeekFrom::Start(offset))?;
    file.write_all(bytes)
}

/// Writes all of the bytes from an offset on, and has the system make the file last (POSIX.1-2017, `fsync`).
fn write_to_last<F: OpenFile + Write + Seek>(
    file: &mut F,
    offset: u64,
    bytes: &[u8],
) -> io::Result<()>
    // A writer that tells its bytes.
    ensures told { ((s : F) → StandsTo (F.Seek.stream_position s) (F.Seek.stream_bytes s) (F.Write.contents s))
        → OnOk result (IfSome (F.Seek.stream_bytes file.old)
        (λ held. F.Write.contents file.new ≡ Some (take offset held ++ bytes.now))) }
{
    write_from(file, offset, bytes)?;
    file.sync_all()
}

/// Writes all of the bytes at the end.
fn append_to<F: Write + Seek>(file: &mut F, bytes: &[u8]) -> io::Result<()>
    // A writer that tells its bytes.
    ensures told { ((s : F) → StandsTo (F.Seek.stream_position s) (F.Seek.stream_bytes s) (F.Write.contents s))
        → OnOk result (IfSome (F.Seek.stream_bytes file.old)
        (λ held. F.Write.contents file.new ≡ Some (held ++ bytes.now))) }
{
    file.seek(SeekFrom::End(0))?;
    file.write_all(bytes)
}

/// The error of a call before the pack is attached.
fn unattached() -> io::Error
    ensures { error_kind result ≡ ErrorKind.NotConnected }
{
    io::Error::from(ErrorKind::NotConnected)
}
