//! The WIT texts of folders.

use std::alloc::{AllocError, Global};
use std::fs;
use std::io::{Error, ErrorKind, Result as IoResult};
use std::rt::Files;
use teasel_files::{Listed, Unlisted};
use teasel_messages::ReadFault;

/// What is in a folder: the paths of what may be a WIT text by its name, and those of folders.
#[derive(Drop)]
struct Entries {
    texts: Vec<String>,
    folders: Vec<String>,
}

impl Entries {
    /// Puts the path of what has this name, where it is a folder or may be a text. Symbolic links are followed, and one that leads nowhere may be a text.
    fn put<R: Files>(&mut self, alloc: Global, rt: &R, name: &str, path: &str) -> IoResult<()> {
        if name.starts_with('.') {
            return Ok(());
        }
        if is_folder(rt, path) {
            self.folders.push(String::from_str(alloc, path)?)?;
        } else if name.ends_with(".wit") {
            self.texts.push(String::from_str(alloc, path)?)?;
        }
        Ok(())
    }
}

fn is_folder<R: Files>(rt: &R, path: &str) -> bool {
    match rt.metadata(path) {
        Ok(found) => found.is_dir(),
        Err(_) => false,
    }
}

/// What is in a folder, in no order. What has a name that isn't UTF-8 is passed over.
fn entries_in<R: Files + Alloc + Clone + Drop>(
    alloc: Global,
    rt: &R,
    folder: &str,
) -> IoResult<Entries> {
    let mut found = Entries {
        texts: Vec::new(alloc),
        folders: Vec::new(alloc),
    };
    for entry in fs::read_dir(rt, folder)? {
        match entry {
            Ok(entry) => found.put(alloc, rt, entry.file_name(), entry.path().as_str())?,
            Err(error) => {
                if error.kind() != ErrorKind::InvalidFilename {
                    return Err(error);
                }
            }
        }
    }
    Ok(found)
}

/// Why a folder can't be listed, or that memory was wanting.
fn unlisted(alloc: Global, folder: &str, error: &Error) -> Unlisted {
    match String::from_str(alloc, folder) {
        Ok(path) => Unlisted {
            path,
            fault: ReadFault::of(error),
        },
        Err(_) => of_memory(alloc),
    }
}

fn of_memory(alloc: Global) -> Unlisted {
    Unlisted {
        path: String::new(alloc),
        fault: ReadFault::Memory,
    }
}

/// What is in a folder, or why it can't be listed.
fn found_in<R: Files + Alloc + Clone + Drop>(
    alloc: Global,
    rt: &R,
    folder: &str,
) -> Result<Entries, Unlisted> {
    match entries_in(alloc, rt, folder) {
        Ok(found) => Ok(found),
        Err(error) => Err(unlisted(alloc, folder, &error)),
    }
}

/// The path of `deps` in a folder.
fn path_of_used(alloc: Global, folder: &str) -> Result<String, AllocError> {
    let slash = if folder.ends_with('/') { "" } else { "/" };
    format!(in alloc; "{folder}{slash}deps")
}

/// Appends the texts right in each of these folders.
fn put_all<R: Files + Alloc + Clone + Drop>(
    alloc: Global,
    rt: &R,
    folders: &[String],
    texts: &mut Vec<String>,
) -> Result<(), Unlisted> {
    for folder in folders {
        let mut found = found_in(alloc, rt, folder)?;
        if texts.append(&mut found.texts).is_err() {
            return Err(of_memory(alloc));
        }
    }
    Ok(())
}

/// The texts in this folder and in those right in it, in order; none where it is no folder.
fn used_in<R: Files + Alloc + Clone + Drop>(
    alloc: Global,
    rt: &R,
    folder: &str,
) -> Result<Vec<String>, Unlisted> {
    if !is_folder(rt, folder) {
        return Ok(Vec::new(alloc));
    }
    let Entries { mut texts, folders } = found_in(alloc, rt, folder)?;
    put_all(alloc, rt, &folders, &mut texts)?;
    texts.sort_unstable();
    Ok(texts)
}

/// The WIT texts of a folder: its own ones, and those in `deps` in it.
pub fn listed<R: Files + Alloc + Clone + Drop>(
    alloc: Global,
    rt: &R,
    folder: &str,
) -> Result<Listed, Unlisted> {
    let mut own = found_in(alloc, rt, folder)?.texts;
    own.sort_unstable();
    match path_of_used(alloc, folder) {
        Ok(path) => {
            let used = used_in(alloc, rt, &path)?;
            Ok(Listed { own, used })
        }
        Err(_) => Err(of_memory(alloc)),
    }
}
