//! The files of this machine.

use crate::folders::listed;
use std::alloc::Global;
use std::fs;
use std::fs::{File, Metadata, OpenFile};
use std::io::{Error, ErrorKind, Read, Result as IoResult, Write};
use std::os::unix::fs::MetadataExt;
use std::rt::Files;
use teasel_files::{Content, Listed, Store, Unlisted, read_within};
use teasel_messages::{ReadFault, WriteFault};

/// The files of this machine, and its standard input.
#[derive(Drop)]
pub struct Host<'a, R: Files, I: Read> {
    pub rt: &'a R,
    pub input: &'a mut I,
}

/// So many names are tried for a new file.
const MOST_NAMES: u32 = 1000;

fn write_whole<F: Write>(file: &mut F, bytes: &[u8]) -> IoResult<()> {
    file.write_all(bytes)?;
    file.flush()
}

/// Writes a new file, with the permissions of the old one if there is one.
fn write_new<F: Write + OpenFile>(
    file: &mut F,
    old: Option<Metadata>,
    bytes: &[u8],
) -> IoResult<()> {
    if let Some(old) = old {
        if file.metadata()?.mode() != old.mode() {
            file.set_permissions(old.permissions())?;
        }
    }
    write_whole(file, bytes)
}

impl<'a, R: Files, I: Read> Host<'a, R, I> {
    /// A new file beside the one of this name, and its own name.
    fn create_beside(&self, alloc: Global, name: &str) -> IoResult<(R::File, String)> {
        for number in 0..MOST_NAMES {
            let new_name = format!(in alloc; "{name}.new{number}")?;
            match File::create_new(self.rt, new_name.as_str()) {
                Ok(file) => return Ok((file, new_name)),
                Err(error) => {
                    if error.kind() != ErrorKind::AlreadyExists {
                        return Err(error);
                    }
                }
            }
        }
        Err(Error::from(ErrorKind::AlreadyExists))
    }

    /// Writes a new file beside the one of this name, with the permissions of that one if it is there, and puts it in its place.
    fn replace_by_new(
        &self,
        alloc: Global,
        name: &str,
        old: Option<Metadata>,
        bytes: &[u8],
    ) -> IoResult<()> {
        let (mut file, new_name) = self.create_beside(alloc, name)?;
        let written = match write_new(&mut file, old, bytes) {
            Ok(()) => fs::rename(self.rt, new_name.as_str(), name),
            Err(error) => Err(error),
        };
        if written.is_err() {
            let _ = fs::remove_file(self.rt, new_name.as_str());
        }
        written
    }

    /// Writes to what has this name and is no file, as a pipe or a device.
    fn write_straight(&self, name: &str, bytes: &[u8]) -> IoResult<()> {
        let mut file = File::create(self.rt, name)?;
        write_whole(&mut file, bytes)
    }

    /// Puts a file of these bytes in the place of the one that has this name, or that a symbolic link of this name leads to.
    fn put(&self, alloc: Global, name: &str, bytes: &[u8]) -> IoResult<()> {
        match self.rt.metadata(name) {
            Ok(old) if old.is_file() => {
                let real_name = self.rt.canonicalize(alloc, name)?;
                self.replace_by_new(alloc, real_name.as_path().as_str(), Some(old), bytes)
            }
            Ok(_) => self.write_straight(name, bytes),
            Err(_) => self.replace_by_new(alloc, name, None, bytes),
        }
    }
}

impl<'a, R: Files + Alloc + Clone + Drop, I: Read> Store for Host<'a, R, I> {
    // Nothing is claimed of what a machine's files hold.
    ghost State = { Unit {0} };

    ghost state = { λ host. tt };

    ghost holds = { λ state name bytes. Unit {0} };

    ghost fails = { λ state name fault. Unit {0} };

    ghost lists = { λ state name own used. Unit {0} };

    ghost unlisted = { λ state name fault. Unit {0} };

    ghost puts = { λ old name bytes new. Unit {0} };

    fn read(&mut self, alloc: Global, name: &str, most: u64) -> Result<Content, ReadFault> {
        if name == "-" {
            return read_within(alloc, self.input, most);
        }
        match File::open(self.rt, name) {
            Ok(mut file) => read_within(alloc, &mut file, most),
            Err(error) => Err(ReadFault::of(&error)),
        }
    }

    fn list(&self, alloc: Global, name: &str) -> Result<Listed, Unlisted> {
        listed(alloc, self.rt, name)
    }

    fn replace(&mut self, alloc: Global, name: &str, bytes: &[u8]) -> Result<(), WriteFault> {
        match self.put(alloc, name, bytes) {
            Ok(()) => Ok(()),
            Err(error) => Err(WriteFault::of(&error)),
        }
    }

    fn is_same(&self, name: &str, other: &str) -> bool {
        match (self.rt.metadata(name), self.rt.metadata(other)) {
            (Ok(one), Ok(two)) => one.dev() == two.dev() && one.ino() == two.ino(),
            _ => false,
        }
    }
}
