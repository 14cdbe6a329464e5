//! Where files are read and written.

ghost use Rattle.std.specs.Prelude.{◌≡◌, ℕ, List, IfErr, IfOk, OnErr, OnOk};
ghost use Rattle.teasel_files.specs.{Contents.IsContent, Contents.UnreadFor, Folders.paths_of};
ghost use Rattle.teasel_messages.specs.declared.faults.ReadFault.{ReadFault};

use crate::input::Content;
use std::alloc::Global;
use teasel_messages::{ReadFault, WriteFault};

/// The paths of a folder's WIT texts: its own ones, and those that these use.
#[derive(Drop)]
pub struct Listed {
    pub own: Vec<String>,
    pub used: Vec<String>,
}

/// Why a folder's texts can't be listed, and the path of what can't, which may be a folder in it.
#[derive(Drop)]
pub struct Unlisted {
    pub path: String,
    pub fault: ReadFault,
}

/// Where files are read and written: those of a machine, or of a test. `-` is the name of standard input.
pub trait Store {
    /// The state of all files.
    ghost State: { Type 0 };

    /// The state that they are in.
    ghost state: { Self → State };

    /// In this state these are the bytes of the file of this name.
    ghost holds: { State → List ℕ → List ℕ → Type 0 };

    /// In this state the file of this name can't be read, for this fault.
    ghost fails: { State → List ℕ → ReadFault → Type 0 };

    /// In this state these are the paths of the own WIT texts of the folder of this name, and of those that they use.
    ghost lists: { State → List ℕ → List (List ℕ) → List (List ℕ) → Type 0 };

    /// In this state the texts of the folder of this name can't be listed, for this fault.
    ghost unlisted: { State → List ℕ → ReadFault → Type 0 };

    /// From the one state to the other a new file of these bytes came in the place of the one of this name, and all else stayed.
    ghost puts: { State → List ℕ → List ℕ → State → Type 0 };

    /// The file of this name, of so many bytes at most.
    fn read(&mut self, alloc: Global, name: &str, most: u64) -> Result<Content, ReadFault>
        ensures bytes { IfOk result (IsContent (holds (state self.old) name.now)) }
        ensures refused { IfErr result (UnreadFor (fails (state self.old) name.now)) }
        ensures kept { state self.new ≡ state self.old };

    /// The paths of the WIT texts of the folder of this name. Its own ones are the files right in it whose names end in `.wit`, in the order of their names.
    /// Those that they use are such files right in `deps` in it, and in the folders right in `deps`, in the order of their paths. What has a name that
    /// begins with `.` is passed over.
    fn list(&self, alloc: Global, name: &str) -> Result<Listed, Unlisted>
        ensures listed { IfOk result (λ l. lists (state self.now) name.now (paths_of l.own.items) (paths_of l.used.items)) }
        ensures refused { IfErr result (λ u. UnreadFor (unlisted (state self.now) name.now) u.fault) };

    /// Puts a new file of these bytes in the place of the one that has this name, if one has, when all of it is written. Else it leaves it as it was.
    fn replace(&mut self, alloc: Global, name: &str, bytes: &[u8]) -> Result<(), WriteFault>
        ensures put { OnOk result (puts (state self.old) name.now bytes.now (state self.new)) }
        ensures kept { OnErr result (state self.new ≡ state self.old) };

    /// Whether both are names of one file that is there.
    fn is_same(&self, name: &str, other: &str) -> bool;
}
