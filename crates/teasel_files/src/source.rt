//! What is read under the names of a command line: files, and folders of WIT texts.

/// What is read of a file: its bytes; or, where it is neither WebAssembly nor WIT text, some of the first ones.
#[derive(Drop)]
pub struct File<'a> {
    pub name: &'a str,
    pub bytes: Vec<u8>,
    /// Whether these are all of its bytes.
    pub whole: bool,
}

/// A text of a folder: its path, and what is read of it.
#[derive(Drop)]
pub struct FolderText {
    pub path: String,
    /// Its bytes; or, where it is neither WebAssembly nor WIT text, some of the first ones.
    pub bytes: Vec<u8>,
    /// Whether these are all of its bytes.
    pub whole: bool,
}

/// A folder of WIT texts: its own ones, and those that these use.
#[derive(Drop)]
pub struct Folder<'a> {
    pub name: &'a str,
    pub own: Vec<FolderText>,
    pub used: Vec<FolderText>,
}

/// What is read under a name.
#[derive(Drop)]
pub enum Source<'a> {
    File(File<'a>),
    Folder(Folder<'a>),
}
