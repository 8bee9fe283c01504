//! A file that is written whole: what it had before stays until all of the new is there, and is in a second file then.

use crate::nothing::has_nothing;
use std::alloc::Global;
use std::fs::{File, Files, OpenOptions};
use std::io::ErrorKind;
use std::os::unix::fs::MetadataExt;
use std::{fs, io};

/// What stands behind a file's name in that of the file beside it.
const BESIDE: &str = ".part";

/// What stands behind it in that of the file that has what was there before.
const BEFORE: &str = ".1";

/// How often a file beside is opened that another writer put in its place meanwhile.
const MOST_TRIES: u64 = 1_000;

/// A new file beside another, whose place it takes once it is whole.
#[derive(Drop)]
pub(crate) struct WholeFile {
    /// The file beside, which no other writer has.
    pub(crate) file: File,
    name: String,
    beside: String,
    /// The file that has what was there before.
    pub(crate) before: String,
}

/// The name of the file that is meant: where a link leads, if it is one. A device or a folder is refused.
fn plain_name<R: Files + Alloc<A = Global>>(rt: &R, name: &str) -> io::Result<String> {
    match fs::metadata(rt, name) {
        Ok(found) if found.is_file() => Ok(fs::canonicalize(rt, name)?.into_string()),
        Ok(_other) => Err(ErrorKind::InvalidInput.into()),
        Err(error) if error.kind() == ErrorKind::NotFound => {
            Ok(format!(in rt.alloc(); "{name}")?)
        }
        Err(error) => Err(error),
    }
}

/// Whether an open file is the one of this name.
pub(crate) fn is_at<R: Files>(rt: &R, file: &File, name: &str) -> io::Result<bool> {
    match fs::metadata(rt, name) {
        Ok(found) => Ok(found.ino() == file.metadata()?.ino()),
        Err(error) if error.kind() == ErrorKind::NotFound => Ok(false),
        Err(error) => Err(error),
    }
}

/// Whether an open file is the one of this name once no other writer has it; then it is empty. Where one has it, it is waited for.
fn is_locked<R: Files>(rt: &R, file: &File, name: &str) -> io::Result<bool> {
    file.lock()?;
    if !is_at(rt, file, name)? {
        return Ok(false);
    }
    file.set_len(0)?;
    Ok(true)
}

/// The file of this name, which no other writer has.
fn locked<R: Files<File = File>>(rt: &R, name: &str) -> io::Result<File> {
    for _ in 0..MOST_TRIES {
        let file = OpenOptions::new().write(true).create(true).open(rt, name)?;
        if is_locked(rt, &file, name)? {
            return Ok(file);
        }
    }
    Err(ErrorKind::WouldBlock.into())
}

/// Gives a file a second name, in place of a file that has that name. The first name stays.
fn named_too<R: Files + Alloc<A = Global>>(rt: &R, name: &str, second: &str) -> io::Result<()> {
    let new = format!(in rt.alloc(); "{second}{BESIDE}")?;
    let _old = fs::remove_file(rt, new.as_str());
    fs::hard_link(rt, name, new.as_str())?;
    fs::rename(rt, new.as_str(), second)
}

/// The folder that a file's name is in.
pub(crate) fn folder_of(name: &str) -> &str {
    match name.rsplit_once('/') {
        Some(("", _name)) => "/",
        Some((folder, _name)) => folder,
        None => ".",
    }
}

/// Has the system keep the names of a file's folder, where it can.
fn sync_folder<R: Files<File = File>>(rt: &R, name: &str) {
    if let Ok(folder) = fs::open(rt, folder_of(name)) {
        let _synced = folder.sync_all();
    }
}

impl WholeFile {
    /// A new file for this name, with nothing in it yet.
    pub(crate) fn new<R: Files<File = File> + Alloc<A = Global>>(
        rt: &R,
        name: &str,
    ) -> io::Result<WholeFile> {
        let name = plain_name(rt, name)?;
        let beside = format!(in rt.alloc(); "{name}{BESIDE}")?;
        let before = format!(in rt.alloc(); "{name}{BEFORE}")?;
        let file = locked(rt, beside.as_str())?;
        Ok(WholeFile {
            file,
            name,
            beside,
            before,
        })
    }

    /// Whether it is the snapshot of a node that has nothing, and the other has something.
    pub(crate) fn would_lose<R: Files + Alloc<A = Global>>(&self, rt: &R) -> io::Result<bool> {
        Ok(has_nothing(rt, self.beside.as_str())? && !has_nothing(rt, self.name.as_str())?)
    }

    /// Keeps the other under the name of what was there before, if it has something. Both names are its own then.
    pub(crate) fn keep_before<R: Files + Alloc<A = Global>>(&self, rt: &R) -> io::Result<()> {
        if has_nothing(rt, self.name.as_str())? {
            return Ok(());
        }
        named_too(rt, self.name.as_str(), self.before.as_str())
    }

    /// Puts it in the place of the other, once the system keeps all of it. Where that fails the other stays.
    pub(crate) fn finish<R: Files<File = File>>(&self, rt: &R) -> io::Result<()> {
        let put = self.put(rt);
        if put.is_ok() {
            sync_folder(rt, self.name.as_str());
        } else {
            self.leave(rt);
        }
        put
    }

    /// The same without its folder, and where it fails both files stay.
    fn put<R: Files<File = File>>(&self, rt: &R) -> io::Result<()> {
        self.file.sync_all()?;
        fs::rename(rt, self.beside.as_str(), self.name.as_str())
    }

    /// Removes it. The other stays.
    pub(crate) fn leave<R: Files<File = File>>(&self, rt: &R) {
        let _removed = fs::remove_file(rt, self.beside.as_str());
    }
}
