//! Trees of files of the system.
ghost use Rattle.std.specs.Prelude.{◌≡◌, ◌≤◌, ◌↔◌, length, None, All, IsTrue, IsErrOf, IfOk, IfNone, IfSome, IsSomeAnd, OnOk};
ghost use Rattle.std.specs.Prelude.{Some, ◌≢◌, ◌++◌, ◌∷◌, [], option_map, string_bytes, string_cmp};
ghost use Rattle.std.specs.BTreeMap.{IsFromIterResult};
ghost use Rattle.std.specs.Fs.{IsDir, IsFile, IsSymlink, dir_entry_name, file_type, metadata_len};
ghost use Rattle.std.specs.List.{AllZip};
ghost use Rattle.tg_bytes.specs.Ascii.{slash};
ghost use Rattle.tg_files.specs.Folders.{IsEntryName, IsTextName, path_below};
ghost use Rattle.tg_files.specs.System.{HasSort, IsEntryOf, KeepsLevel, listed_at};
ghost use Rattle.tg_files.specs.TempNames.{BeginsWith, temp_front};

use crate::folders::{Folder, FolderFault};
use crate::place::{Place, Target};
use crate::reading::read_within;
use crate::temp_names::{TempNames, begins_with};
use std::alloc::{AllocError, Global};
use std::collections::BTreeMap;
use std::fs::{DirEntry, File, Metadata, OpenFile};
use std::os::unix::fs::MetadataExt;
use std::rt::Files;
use std::{fs, io, str};
use tg_bytes::{Bytes, List};
use tg_faults::Failed;
use tg_tree::{Item, Sort};

/// A tree of files of the system that is read, as its folders listed it. Its files aren't told.
///
/// What a folder didn't list isn't there. What was listed is known on the way to the folder that was listed last: a
/// folder is listed once the one above it was, and what it lists is forgotten once a folder is listed that isn't within
/// it. Below the attached folder no symbolic link is followed: what stands at a path is looked at before it is opened
/// and again once it is open, and it is a fault where it isn't the same object of the system that was listed. The file
/// that was read last stays open until another path is read or listed. A file has as many bytes as it had when its
/// folder was listed last: no byte behind them is given, and where it became shorter it is a fault. Every call before
/// it is attached is a fault, and so is a path with a name that isn't text or that doesn't lead into a folder: an empty
/// one, one with a slash, one dot and two. What the program itself writes meanwhile, to put it in another's place later, is
/// no entry of a folder.
#[derive(Drop)]
pub struct HostFolder<R: Files> {
    rt: R,
    names: TempNames,
    attached: Option<Attached>,
    reading: Option<OpenedFile<R::File>>,
    place: Place,
    failed: u64,
}

/// The folder of the system that is read, and what was listed on the way to the folder that was listed last, by its
/// path of the system: first what the root listed, then what a folder in it listed, and so on.
#[derive(Drop)]
struct Attached {
    root: String,
    levels: Vec<BTreeMap<String, Listed>>,
}

/// A file that is open, and the path of the system at which it stood.
#[derive(Drop)]
struct OpenedFile<F> {
    path: String,
    file: F,
}

/// What stood at a path when its folder was listed.
#[derive(Clone, Copy)]
struct Listed {
    sort: Sort,
    size: u64,
    device: u64,
    number: u64,
}

/// The names in a folder, and what stood at the path of each.
#[derive(Drop)]
struct Listing {
    items: List<Item>,
    found: Vec<(String, Listed)>,
}

impl<R: Files> HostFolder<R> {
    /// A folder that is attached to nothing yet, with no fault counted; files with these names are left out.
    pub fn new(rt: R, names: TempNames) -> HostFolder<R>
        ensures { result ≡ record {
          rt = rt;
          names = names;
          attached = None;
          reading = None;
          place = record
              { at = None };
          failed = 0;
        } }
    {
        HostFolder {
            rt,
            names,
            attached: None,
            reading: None,
            place: Place::nowhere(),
            failed: 0,
        }
    }

    /// How many calls failed.
    pub fn count(&self) -> u64
        ensures { result ≡ self.now.failed }
    {
        self.failed
    }
}

impl<R: Files + AllocGlobal + Clone + Drop> HostFolder<R> {
    /// What stands in the folder at a path, which is kept.
    fn items(&mut self, names: &[Bytes]) -> Result<List<Item>, FolderFault>
        ensures others { IfOk result (λ items. All (λ item. ¬ BeginsWith (temp_front self.old.names.number) item.name) items) }
        ensures failed { self.new.failed ≡ self.old.failed }
        ensures place { self.new.place ≡ self.old.place }
    {
        self.reading = None;
        let Some(attached) = &mut self.attached else {
            return Err(FolderFault::Failed);
        };
        let left_out = self.names.front(self.rt.alloc())?;
        let Listing { items, found } = attached.listing_of(&self.rt, left_out.as_str(), names)?;
        attached.keep(self.rt.alloc(), names.len(), found)?;
        Ok(items)
    }

    /// One read of the file at a path, which stays open where the read is done.
    fn piece(&mut self, names: &[Bytes], offset: u64, buf: &mut [u8]) -> Result<usize, FolderFault>
        ensures amount { IfOk result (λ n. n ≤ length buf.new) }
        ensures failed { self.new.failed ≡ self.old.failed }
        ensures place { self.new.place ≡ self.old.place }
    {
        let (path, listed) = self.file_at(names)?;
        let mut opened = self.opened(path, &listed)?;
        let n = read_within(&mut opened.file, listed.size, offset, buf)?;
        self.reading = Some(opened);
        Ok(n)
    }

    /// The path of the system that the names lead to, and the file that was listed there.
    fn file_at(&self, names: &[Bytes]) -> Result<(String, Listed), FolderFault> {
        let Some(attached) = &self.attached else {
            return Err(FolderFault::Failed);
        };
        let path = system_path(self.rt.alloc(), attached.root.as_str(), names)?;
        match attached.file(names.len(), path.as_str()) {
            Some(listed) => Ok((path, listed)),
            None => Err(FolderFault::Failed),
        }
    }

    /// The file that was listed at a path: the one that is open, or else it is opened.
    fn opened(&mut self, path: String, listed: &Listed) -> Result<OpenedFile<R::File>, FolderFault>
        ensures failed { self.new.failed ≡ self.old.failed }
        ensures place { self.new.place ≡ self.old.place }
    {
        match self.reading.take() {
            Some(opened) if opened.path.as_str() == path.as_str() => Ok(opened),
            _ => open_listed(&self.rt, path, listed),
        }
    }
}

impl<R: Files + AllocGlobal + Clone + Drop> Folder for HostFolder<R> {
    ghost folder = { record {
      tree = λ _. None;
      place = λ f. option_map (λ p. p.path) f.place.at;
      faults = λ f. f.failed;
      calls = λ _. None;
    } };

    fn tells(&self) {}

    /// The path is one of the system's and leads to a folder, also by a symbolic link.
    fn attach(&mut self, path: &str) -> Result<(), Failed> {
        match root_of(&self.rt, path) {
            Ok(root) => {
                let levels = Vec::new(self.rt.alloc());
                self.attached = Some(Attached { root, levels });
                self.reading = None;
                self.place = Place::of(&Target { path, fresh: false });
                Ok(())
            }
            Err(_) => {
                self.failed = self.failed.saturating_add(1);
                Err(Failed)
            }
        }
    }

    /// The names in the system's order. A name that isn't text is a fault.
    fn list(&mut self, path: &[Bytes]) -> Result<List<Item>, FolderFault> {
        let listed = self.items(path);
        if let Err(FolderFault::Failed) = listed {
            self.failed = self.failed.saturating_add(1);
        }
        listed
    }

    /// One read, begun anew where it is interrupted. Want of memory for the path is a fault, and so is an offset of 2 ^
    /// 63 or more within the file.
    fn read_at(&mut self, path: &[Bytes], offset: u64, buf: &mut [u8]) -> Result<usize, Failed> {
        match self.piece(path, offset, buf) {
            Ok(n) => Ok(n),
            Err(_) => {
                self.failed = self.failed.saturating_add(1);
                Err(Failed)
            }
        }
    }
}

impl Attached {
    /// What stood at a path of so many names when the folder above it was listed.
    fn found(&self, depth: usize, path: &str) -> Option<Listed>
        ensures { result ≡ listed_at self.now.levels.items depth path.now }
    {
        let above = depth.checked_sub(1)?;
        self.levels.get(above)?.get(path).copied()
    }

    /// Whether a folder was listed at a path of so many names, and this is it.
    fn is_folder(&self, found: &Metadata, depth: usize, path: &str) -> bool
        ensures folder { IsTrue result → IsDir (file_type found.now) }
        ensures listed { IsTrue result → IsSomeAnd (listed_at self.now.levels.items depth path.now)
            (λ listed. HasSort (file_type found.now) listed.sort) }
    {
        match self.found(depth, path) {
            Some(listed) => found.is_dir() && listed.is_same(found),
            None => false,
        }
    }

    /// What stands in the folder at a path, which is a fault where it isn't the one that was listed below the root.
    fn listing_of<R: Files + AllocGlobal + Clone + Drop>(
        &self,
        rt: &R,
        left_out: &str,
        names: &[Bytes],
    ) -> Result<Listing, FolderFault>
        ensures { IfOk result (λ listing. All (λ item. ¬ BeginsWith left_out.now item.name) listing.items) }
    {
        let path = system_path(rt.alloc(), self.root.as_str(), names)?;
        let path = path.as_str();
        let listing = entries_of(rt, left_out, path)?;
        let depth = names.len();
        if depth > 0 && !self.is_folder(&fs::symlink_metadata(rt, path)?, depth, path) {
            return Err(FolderFault::Failed);
        }
        Ok(listing)
    }

    /// The file that was listed at a path of so many names.
    fn file(&self, depth: usize, path: &str) -> Option<Listed>
        ensures listed { IfSome result (λ listed. listed_at self.now.levels.items depth path.now ≡ Some listed) }
        ensures file { IfSome result (λ listed. listed.sort ≡ Sort.File) }
        ensures none { IfNone result (IfSome (listed_at self.now.levels.items depth path.now)
            (λ listed. listed.sort ≢ Sort.File)) }
    {
        match self.found(depth, path) {
            Some(listed) if listed.sort == Sort::File => Some(listed),
            _ => None,
        }
    }

    /// Keeps what the folder at a path of so many names listed, behind what was listed on the way to it alone.
    fn keep(
        &mut self,
        alloc: Global,
        depth: usize,
        found: Vec<(String, Listed)>,
    ) -> Result<(), FolderFault>
        ensures { OnOk result (KeepsLevel depth found.items self.old.levels.items self.new.levels.items) }
    {
        let level = level_of(alloc, found)?;
        self.levels.truncate(depth);
        self.levels.push(level)?;
        Ok(())
    }
}

/// What stood in a folder when it was listed, by its path of the system.
fn level_of(
    alloc: Global,
    found: Vec<(String, Listed)>,
) -> Result<BTreeMap<String, Listed>, AllocError>
    ensures { IfOk result (IsFromIterResult string_cmp found.items) }
{
    BTreeMap::from_iter(alloc, found)
}

impl Listed {
    /// What was found at a path.
    fn of(found: &Metadata) -> Listed
        ensures sort { result.sort ≡ Sort.File ↔ IsFile (file_type found.now) }
        ensures sorted { HasSort (file_type found.now) result.sort }
        ensures size { result.size ≡ metadata_len found.now }
    {
        Listed {
            sort: sort_of(found),
            size: found.len(),
            device: found.dev(),
            number: found.ino(),
        }
    }

    /// Whether this is the same object of the system, of the same sort.
    fn is_same(&self, found: &Metadata) -> bool
        ensures { IsTrue result → HasSort (file_type found.now) self.now.sort }
    {
        sort_of(found) == self.sort && found.dev() == self.device && found.ino() == self.number
    }
}

/// Opens the file that was listed at a path. It is a fault where another object of the system stands there, or where
/// the file became shorter. It is looked at before it is opened too, since an open of a named pipe waits for its
/// writer.
fn open_listed<R: Files>(
    rt: &R,
    path: String,
    listed: &Listed,
) -> Result<OpenedFile<R::File>, FolderFault> {
    if !listed.is_same(&fs::symlink_metadata(rt, path.as_str())?) {
        return Err(FolderFault::Failed);
    }
    let file = File::open(rt, path.as_str())?;
    let found = file.metadata()?;
    if !listed.is_same(&found) || found.len() < listed.size {
        return Err(FolderFault::Failed);
    }
    Ok(OpenedFile { path, file })
}

/// What stands in the folder at a path of the system, but for names that begin with `left_out`.
fn entries_of<R: Files + AllocGlobal + Clone + Drop>(
    rt: &R,
    left_out: &str,
    path: &str,
) -> Result<Listing, FolderFault>
    ensures others { IfOk result (λ listing. All (λ item. ¬ BeginsWith left_out.now item.name) listing.items) }
    ensures entries { IfOk result (λ listing. AllZip (λ item found. IsEntryOf path.now item
        (string_bytes found.0) found.1) listing.items listing.found.items) }
{
    let alloc = rt.alloc();
    let entries = fs::read_dir(rt, path)?;
    let mut listing = Listing {
        items: List::new(alloc),
        found: Vec::new(alloc),
    };
    for entry in entries {
        listing.add(alloc, left_out, path, entry)?;
    }
    Ok(listing)
}

impl Listing {
    /// Adds an entry that the system gave of the folder at a path, or its error is a fault. One whose name begins with
    /// `left_out` isn't added.
    fn add<R: Files + Drop>(
        &mut self,
        alloc: Global,
        left_out: &str,
        folder: &str,
        entry: io::Result<DirEntry<R>>,
    ) -> Result<(), FolderFault>
        ensures others { All (λ item. ¬ BeginsWith left_out.now item.name) self.old.items
            → OnOk result (All (λ item. ¬ BeginsWith left_out.now item.name) self.new.items) }
        ensures entries { AllZip (λ item found. IsEntryOf folder.now item
            (string_bytes found.0) found.1) self.old.items self.old.found.items
            → OnOk result (AllZip (λ item found. IsEntryOf folder.now item
            (string_bytes found.0) found.1) self.new.items self.new.found.items) }
    {
        let entry = entry?;
        if begins_with(entry.file_name(), left_out) {
            return Ok(());
        }
        let (item, path, listed) = entry_of(alloc, folder, &entry)?;
        self.found.push((path, listed))?;
        self.items.push(item)?;
        Ok(())
    }
}

/// One entry of the folder at a path of the system: its item, its own path, and what stands there.
fn entry_of<R: Files>(
    alloc: Global,
    folder: &str,
    entry: &DirEntry<R>,
) -> Result<(Item, String, Listed), FolderFault>
    ensures name { IfOk result (λ found. found.0.name ≡ dir_entry_name entry.now) }
    ensures path { IfOk result (λ found. IsEntryOf folder.now found.0 (string_bytes found.1) found.2) }
{
    let name = entry.file_name();
    let listed = Listed::of(&entry.metadata()?);
    let mut path = String::from_str(alloc, folder)?;
    push_name(&mut path, name)?;
    Ok((Item::of(alloc, name.as_bytes(), listed.sort)?, path, listed))
}

impl From<io::Error> for FolderFault {
    fn from(e: io::Error) -> FolderFault {
        if e.kind() == io::ErrorKind::OutOfMemory {
            FolderFault::OutOfMemory
        } else {
            FolderFault::Failed
        }
    }
}

/// The path itself, which leads to a folder.
fn root_of<R: Files + AllocGlobal>(rt: &R, path: &str) -> io::Result<String>
    ensures { IfOk result (λ root. string_bytes root ≡ path.now) }
{
    if !fs::metadata(rt, path)?.is_dir() {
        return Err(io::Error::from(io::ErrorKind::NotADirectory));
    }
    Ok(String::from_str(rt.alloc(), path)?)
}

/// The path of the system that names lead to below a root: each behind a slash.
///
/// Errors: `Failed`, which nobody counts, where a name isn't text or doesn't lead into a folder and no further: an empty one, one
/// with a slash, one dot and two (POSIX.1-2017, 4.13, Pathname Resolution); `OutOfMemory`.
pub fn system_path(alloc: Global, root: &str, names: &[Bytes]) -> Result<String, FolderFault>
    ensures path { IfOk result (λ path. string_bytes path ≡ path_below root.now names.now) }
    ensures names { IfOk result (λ _. All IsTextName names.now) }
    ensures failed { IsErrOf result FolderFault.Failed → ¬ All IsTextName names.now }
{
    let mut path = String::from_str(alloc, root)?;
    for name in names {
        match str::from_utf8(name.as_slice()) {
            Ok(name) if is_entry_name(name) => push_name(&mut path, name)?,
            _ => return Err(FolderFault::Failed),
        }
    }
    Ok(path)
}

/// Makes the path of a folder that of a name in it.
fn push_name(path: &mut String, name: &str) -> Result<(), AllocError>
    ensures { OnOk result (string_bytes path.new ≡ (string_bytes path.old ++ slash ∷ []) ++ name.now) }
{
    path.push_str("/")?;
    path.push_str(name)
}

/// Whether a name leads into a folder, and no further.
fn is_entry_name(name: &str) -> bool
    ensures { IsTrue result ↔ IsEntryName name.now }
{
    match name {
        "" | "." | ".." => false,
        _ => !name.as_bytes().contains(&b'/'),
    }
}

/// What a file is, where a symbolic link isn't followed.
fn sort_of(found: &Metadata) -> Sort
    ensures file { result ≡ Sort.File ↔ IsFile (file_type found.now) }
    ensures folder { result ≡ Sort.Folder ↔ IsDir (file_type found.now) }
    ensures symlink { result ≡ Sort.Symlink ↔ IsSymlink (file_type found.now) }
    ensures sort { HasSort (file_type found.now) result }
{
    if found.is_file() {
        Sort::File
    } else if found.is_dir() {
        Sort::Folder
    } else if found.is_symlink() {
        Sort::Symlink
    } else {
        Sort::Other
    }
}
