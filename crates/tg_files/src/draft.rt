//! Files of the system that are written beside others, and put in their place once they are finished.
ghost use Rattle.std.specs.Prelude.{◌≡◌, ◌↔◌, false, true, IfErr, IfOk, IsOk, OnErr, OnOk};
ghost use Rattle.std.specs.Fs.{IsFile, asks_create_new, asks_read, asks_write, file_type};
ghost use Rattle.std.specs.IoError.{error_kind};
ghost use Rattle.std.specs.Path.{path_buf_bytes, path_bytes};
ghost use Rattle.tg_files.specs.TempNames.{IsBeside};

use crate::temp_names::TempNames;
use std::fs::{File, Metadata, OpenFile, OpenOptions, Permissions};
use std::io::ErrorKind;
use std::os::unix::fs::OpenOptionsExt;
use std::path::{Path, PathBuf};
use std::rt::Files;
use std::{fs, io};

/// How many symbolic links are followed one after another at most, as Linux follows them (`path_resolution(7)`).
const MAX_LINKS: u32 = 40;

/// Who may read and write a file that is made where there was none, before the system takes from it what new files don't get
/// (POSIX.1-2017, `umask`).
const NEW_MODE: u32 = 0o666;

/// Who may read and write a file in the place of another before it gets the permissions of that one: its owner.
const OWN_MODE: u32 = 0o600;

/// A file that is written beside the one in whose place it is to stand. Where it is dropped before it was put there, it is
/// removed.
pub(crate) struct Draft<R: Files + Drop> {
    rt: R,
    path: PathBuf,
    target: PathBuf,
    is_put: bool,
}

impl<R: Files + Drop> Draft<R> {
    /// Puts the file in the other's place, unless it stands there. There is the one or the other at any time (POSIX.1-2017,
    /// `rename`). Errors: those of the system, with which nothing is done.
    pub(crate) fn put(&mut self) -> io::Result<()>
        ensures put { OnOk result (self.new.is_put ≡ true) }
        ensures paths { (self.new.path ≡ self.old.path) × (self.new.target ≡ self.old.target) }
        ensures err_same { OnErr result (self.new ≡ self.old) }
    {
        if self.is_put {
            return Ok(());
        }
        fs::rename(&self.rt, self.path.as_str(), self.target.as_str())?;
        self.is_put = true;
        sync_folder(&self.rt, self.target.as_path());
        Ok(())
    }
}

impl<R: Files + Drop> Drop for Draft<R> {
    fn drop(self) {
        if !self.is_put {
            let _ = fs::remove_file(&self.rt, self.path.as_str());
        }
        let Draft {
            rt: _,
            path: _,
            target: _,
            is_put: _,
        } = self;
    }
}

/// Has the system make the entries of the folder last in which the file stands (POSIX.1-2017, `fsync`). Not each file system
/// can, and not each folder may be read: it is no error where it isn't done.
fn sync_folder<R: Files>(rt: &R, file: Path<'_>) {
    let folder = match file.parent() {
        Some(folder) if !folder.as_str().is_empty() => folder.as_str(),
        _ => ".",
    };
    if let Ok(folder) = File::open(rt, folder) {
        let _ = folder.sync_all();
    }
}

/// Makes a file to be read and written beside the one at a path, behind the symbolic links there, which stays as it is. Where
/// there is one the new file has its permissions, and where there is one that isn't a file or may not be written, that is an
/// error. Errors: those of the system; `InvalidInput` where the path names no file, or another thing than a file stands there.
pub(crate) fn create<R: Files + AllocGlobal + Clone + Drop>(
    rt: &R,
    names: TempNames,
    path: &str,
) -> io::Result<(R::File, Draft<R>)>
    ensures name { IfOk result (λ made. IsBeside names.number (path_buf_bytes made.1.target) (path_buf_bytes made.1.path)) }
    ensures unput { IfOk result (λ made. made.1.is_put ≡ false) }
{
    let target = behind_links(rt, path)?;
    check_names_file(target.as_path())?;
    let permissions = permissions_at(rt, target.as_str())?;
    let mode = if permissions.is_some() {
        OWN_MODE
    } else {
        NEW_MODE
    };
    let own = rt.clone()?;
    let (path, file) = create_beside(rt, names, target.as_path(), &options_of(mode))?;
    let draft = Draft {
        rt: own,
        path,
        target,
        is_put: false,
    };
    check_is_file(&file.metadata()?)?;
    if let Some(permissions) = permissions {
        file.set_permissions(permissions)?;
    }
    Ok((file, draft))
}

/// The path behind the symbolic links at a path, one after another. Errors: those of the system; `InvalidInput` where there
/// are too many.
fn behind_links<R: Files + AllocGlobal>(rt: &R, path: &str) -> io::Result<PathBuf> {
    let mut at = PathBuf::from_str(rt.alloc(), path)?;
    for _ in 0..MAX_LINKS {
        match fs::symlink_metadata(rt, at.as_str()) {
            Ok(found) if found.is_symlink() => {
                let text = fs::read_link(rt, at.as_str())?;
                at = at.as_path().with_file_name(rt.alloc(), text.as_str())?;
            }
            Ok(_) => return Ok(at),
            Err(e) if e.kind() == ErrorKind::NotFound => return Ok(at),
            Err(e) => return Err(e),
        }
    }
    Err(io::Error::from(ErrorKind::InvalidInput))
}

/// It is an error where the path doesn't end with a file's name: where it is empty, or ends with a slash, one dot or two.
fn check_names_file(path: Path<'_>) -> io::Result<()>
    ensures kind { IfErr result (λ e. error_kind e ≡ ErrorKind.InvalidInput) }
{
    match path.file_name() {
        Some(name) if path.as_str().ends_with(name) => Ok(()),
        _ => Err(io::Error::from(ErrorKind::InvalidInput)),
    }
}

/// The permissions of the file at a path, which may be written, or none where nothing stands there. It is looked at before
/// it is opened too, since an open of a named pipe waits for its reader.
fn permissions_at<R: Files>(rt: &R, path: &str) -> io::Result<Option<Permissions>> {
    match fs::metadata(rt, path) {
        Ok(found) => check_is_file(&found)?,
        Err(e) if e.kind() == ErrorKind::NotFound => return Ok(None),
        Err(e) => return Err(e),
    }
    let file = OpenOptions::new().write(true).open(rt, path)?;
    let found = file.metadata()?;
    check_is_file(&found)?;
    Ok(Some(found.permissions()))
}

/// Makes a file beside the one at a path, under the first of the names that isn't there, and gives its path.
fn create_beside<R: Files + AllocGlobal>(
    rt: &R,
    names: TempNames,
    target: Path<'_>,
    how: &OpenOptions,
) -> io::Result<(PathBuf, R::File)>
    ensures { IfOk result (λ made. IsBeside names.number (path_bytes target.entry) (path_buf_bytes made.0)) }
{
    for count in 0..u64::MAX {
        let name = names.name(rt.alloc(), count)?;
        let path = target.with_file_name(rt.alloc(), name.as_str())?;
        match how.open(rt, path.as_str()) {
            Err(e) if e.kind() == ErrorKind::AlreadyExists => {}
            Err(e) => return Err(e),
            Ok(file) => return Ok((path, file)),
        }
    }
    Err(io::Error::from(ErrorKind::AlreadyExists))
}

/// A file that wasn't there before, to be read and written, with these permissions.
fn options_of(mode: u32) -> OpenOptions
    ensures new { asks_create_new result ≡ true }
    ensures access { (asks_read result ≡ true) × (asks_write result ≡ true) }
{
    let mut how = OpenOptions::new();
    how.mode(mode);
    how.read(true).write(true).create_new(true);
    how
}

/// It is an error where what was found isn't a file.
pub(crate) fn check_is_file(found: &Metadata) -> io::Result<()>
    ensures is { IsOk result ↔ IsFile (file_type found.now) }
    ensures kind { IfErr result (λ e. error_kind e ≡ ErrorKind.InvalidInput) }
{
    if found.is_file() {
        Ok(())
    } else {
        Err(io::Error::from(ErrorKind::InvalidInput))
    }
}
