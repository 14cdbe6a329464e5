//! What a word is given.

ghost use Rattle.std.specs.Prelude.{◌<◌, length};
ghost use Rattle.std.proofs.Props.{props};
ghost use Rattle.wit_model.specs.Valid.{IsValid};

use teasel_messages::Refusal;
use wit_model::{PackageId, Resolve};

/// What texts are read as: their packages, and the one with which they begin. It has the documentation and the gates of the texts, which the bytes of a
/// package have no place for.
#[derive(Drop)]
pub struct Read {
    pub resolve: Resolve,
    pub main: PackageId,
    pub ghost valid: { IsValid resolve } by { Prim.hlevel props },
    pub ghost in_range: { main.0 < length resolve.packages.items },
}

/// What is read of a file: its bytes; or, where it is neither WebAssembly nor WIT text, some of the first ones. Or the package that stands in the place of
/// WIT text, or of a folder of texts.
#[derive(Drop)]
pub struct Input<'a> {
    pub name: &'a str,
    pub bytes: Vec<u8>,
    /// Whether these are all of its bytes.
    pub whole: bool,
    /// Why no package is made of the WIT text, or the folder, in whose place this is.
    pub refusal: Option<Refusal>,
    /// What the texts are read as in whose place the package stands.
    pub read: Option<Read>,
}
