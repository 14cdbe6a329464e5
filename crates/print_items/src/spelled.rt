//! Calls of text that has to be spelled.

ghost use Rattle.std.specs.Prelude.{◌≡◌, [], ◌∷◌, ◌++◌, codes, IsTrue, IfOk, OnOk, OnErr, IfErr};
ghost use Rattle.std.specs.{Fmt.decimal, String.string_bytes};
ghost use Rattle.wit_model.specs.Refusals.{IsMemory};
ghost use Rattle.semver.specs.Identifiers.{version_text};
ghost use Rattle.print_output.specs.OutputCall.{OutputCall, Moves, Begins, may_stand, line_begun_after};
ghost use Rattle.print_grammar.specs.{Calls.character_call, Keyword.escaped};

use print_grammar::escape::{escape, escape_character, is_keyword, unescaped};
use print_output::{Output, TypeKind};
use semver::Version;
use std::alloc::{AllocError, Global};
use wit_model::Error;

/// A name of a kind, as an id.
#[tactic(auto, using(crate::proofs::Moves::moving))]
pub(crate) fn print_name<O: Output>(
    output: &mut O,
    alloc: Global,
    label: &str,
    kind: TypeKind,
) -> Result<(), Error>
    requires { IsTrue (may_stand (O.view output.old).line_begun (OutputCall.Ty (escaped label.now) kind)) }
    ensures ok { OnOk result (Moves O.keeps (O.view output.old) (OutputCall.Ty (escaped label.now) kind ∷ []) (O.view output.new)) }
    ensures line { OnOk result ((O.view output.new).line_begun ≡ line_begun_after (OutputCall.Ty (escaped label.now) kind) (O.view output.old).line_begun) }
    ensures err { OnErr result (Begins O.keeps (O.view output.old) (OutputCall.Ty (escaped label.now) kind ∷ []) (O.view output.new)) }
    ensures memory { IfErr result IsMemory }
{
    if is_keyword(label) {
        let text = escape(alloc, label)?;
        return output.ty(text.as_str(), kind);
    }
    output.ty(unescaped(label), kind)
}

/// The name of a parameter or a field, as an id.
#[tactic(auto, using(crate::proofs::Moves::moving))]
pub(crate) fn print_param<O: Output>(
    output: &mut O,
    alloc: Global,
    label: &str,
) -> Result<(), Error>
    requires { IsTrue (may_stand (O.view output.old).line_begun (OutputCall.Param (escaped label.now))) }
    ensures ok { OnOk result (Moves O.keeps (O.view output.old) (OutputCall.Param (escaped label.now) ∷ []) (O.view output.new)) }
    ensures line { OnOk result ((O.view output.new).line_begun ≡ line_begun_after (OutputCall.Param (escaped label.now)) (O.view output.old).line_begun) }
    ensures err { OnErr result (Begins O.keeps (O.view output.old) (OutputCall.Param (escaped label.now) ∷ []) (O.view output.new)) }
    ensures memory { IfErr result IsMemory }
{
    if is_keyword(label) {
        let text = escape(alloc, label)?;
        return output.param(text.as_str());
    }
    output.param(unescaped(label))
}

/// The name of a case or a flag, as an id.
#[tactic(auto, using(crate::proofs::Moves::moving))]
pub(crate) fn print_case<O: Output>(output: &mut O, alloc: Global, label: &str) -> Result<(), Error>
    requires { IsTrue (may_stand (O.view output.old).line_begun (OutputCall.Case (escaped label.now))) }
    ensures ok { OnOk result (Moves O.keeps (O.view output.old) (OutputCall.Case (escaped label.now) ∷ []) (O.view output.new)) }
    ensures line { OnOk result ((O.view output.new).line_begun ≡ line_begun_after (OutputCall.Case (escaped label.now)) (O.view output.old).line_begun) }
    ensures err { OnErr result (Begins O.keeps (O.view output.old) (OutputCall.Case (escaped label.now) ∷ []) (O.view output.new)) }
    ensures memory { IfErr result IsMemory }
{
    if is_keyword(label) {
        let text = escape(alloc, label)?;
        return output.case(text.as_str());
    }
    output.case(unescaped(label))
}

/// The name of a feature, as an id.
#[tactic(auto, using(crate::proofs::Moves::moving))]
pub(crate) fn print_feature<O: Output>(
    output: &mut O,
    alloc: Global,
    label: &str,
) -> Result<(), Error>
    requires { IsTrue (may_stand (O.view output.old).line_begun (OutputCall.Str (escaped label.now))) }
    ensures ok { OnOk result (Moves O.keeps (O.view output.old) (OutputCall.Str (escaped label.now) ∷ []) (O.view output.new)) }
    ensures line { OnOk result ((O.view output.new).line_begun ≡ line_begun_after (OutputCall.Str (escaped label.now)) (O.view output.old).line_begun) }
    ensures err { OnErr result (Begins O.keeps (O.view output.old) (OutputCall.Str (escaped label.now) ∷ []) (O.view output.new)) }
    ensures memory { IfErr result IsMemory }
{
    if is_keyword(label) {
        let text = escape(alloc, label)?;
        return output.str(text.as_str());
    }
    output.str(unescaped(label))
}

/// The length of a list as it stands behind the type of its elements.
fn length_text(alloc: Global, length: u32) -> Result<String, AllocError>
    ensures { IfOk result (λ text. string_bytes text ≡ codes ", " ++ decimal length) }
{
    format!(in alloc; ", {length}")
}

/// The length of a list, as other text.
#[tactic(auto, using(crate::proofs::Moves::moving))]
pub(crate) fn print_length<O: Output>(
    output: &mut O,
    alloc: Global,
    length: u32,
) -> Result<(), Error>
    requires { IsTrue (may_stand (O.view output.old).line_begun (OutputCall.Str (codes ", " ++ decimal length))) }
    ensures ok { OnOk result (Moves O.keeps (O.view output.old) (OutputCall.Str (codes ", " ++ decimal length) ∷ []) (O.view output.new)) }
    ensures line { OnOk result ((O.view output.new).line_begun
        ≡ line_begun_after (OutputCall.Str (codes ", " ++ decimal length)) (O.view output.old).line_begun) }
    ensures err { OnErr result (Begins O.keeps (O.view output.old) (OutputCall.Str (codes ", " ++ decimal length) ∷ []) (O.view output.new)) }
    ensures memory { IfErr result IsMemory }
{
    let text = length_text(alloc, length)?;
    output.str(text.as_str())
}

/// The length of a list, without indentation.
#[tactic(auto, using(crate::proofs::Moves::moving))]
pub(crate) fn push_length<O: Output>(
    output: &mut O,
    alloc: Global,
    length: u32,
) -> Result<(), Error>
    requires { IsTrue (may_stand (O.view output.old).line_begun (OutputCall.PushStr (codes ", " ++ decimal length))) }
    ensures ok { OnOk result (Moves O.keeps (O.view output.old) (OutputCall.PushStr (codes ", " ++ decimal length) ∷ []) (O.view output.new)) }
    ensures line { OnOk result ((O.view output.new).line_begun
        ≡ line_begun_after (OutputCall.PushStr (codes ", " ++ decimal length)) (O.view output.old).line_begun) }
    ensures err { OnErr result (Begins O.keeps (O.view output.old) (OutputCall.PushStr (codes ", " ++ decimal length) ∷ []) (O.view output.new)) }
    ensures memory { IfErr result IsMemory }
{
    let text = length_text(alloc, length)?;
    output.push_str(text.as_str())
}

/// A character of a string, escaped where it doesn't stand for itself.
#[tactic(auto, using(crate::proofs::Moves::moving))]
pub(crate) fn print_character<O: Output>(
    output: &mut O,
    alloc: Global,
    c: char,
) -> Result<(), Error>
    requires { IsTrue (may_stand (O.view output.old).line_begun (character_call c)) }
    ensures ok { OnOk result (Moves O.keeps (O.view output.old) (character_call c ∷ []) (O.view output.new)) }
    ensures line { OnOk result ((O.view output.new).line_begun ≡ line_begun_after (character_call c) (O.view output.old).line_begun) }
    ensures err { OnErr result (Begins O.keeps (O.view output.old) (character_call c ∷ []) (O.view output.new)) }
    ensures memory { IfErr result IsMemory }
{
    let text = escape_character(alloc, c)?;
    output.push_str(text.as_str())
}

/// A version of a kind after its mark.
#[tactic(auto, using(crate::proofs::Moves::moving))]
pub(crate) fn print_marked_version<O: Output>(
    output: &mut O,
    alloc: Global,
    version: &Version,
    kind: TypeKind,
) -> Result<(), Error>
    requires { IsTrue (may_stand (O.view output.old).line_begun (OutputCall.Ty (64 ∷ version_text version.now) kind)) }
    ensures ok { OnOk result (Moves O.keeps (O.view output.old) (OutputCall.Ty (64 ∷ version_text version.now) kind ∷ []) (O.view output.new)) }
    ensures line { OnOk result ((O.view output.new).line_begun
        ≡ line_begun_after (OutputCall.Ty (64 ∷ version_text version.now) kind) (O.view output.old).line_begun) }
    ensures err { OnErr result (Begins O.keeps (O.view output.old) (OutputCall.Ty (64 ∷ version_text version.now) kind ∷ []) (O.view output.new)) }
    ensures memory { IfErr result IsMemory }
{
    let text = format!(in alloc; "@{version}")?;
    output.ty(text.as_str(), kind)
}

/// A version in an attribute.
#[tactic(auto, using(crate::proofs::Moves::moving))]
pub(crate) fn print_plain_version<O: Output>(
    output: &mut O,
    alloc: Global,
    version: &Version,
) -> Result<(), Error>
    requires { IsTrue (may_stand (O.view output.old).line_begun (OutputCall.Ty (version_text version.now) TypeKind.VersionAnnotation)) }
    ensures ok { OnOk result (Moves O.keeps (O.view output.old) (OutputCall.Ty (version_text version.now) TypeKind.VersionAnnotation ∷ [])
        (O.view output.new)) }
    ensures line { OnOk result ((O.view output.new).line_begun
        ≡ line_begun_after (OutputCall.Ty (version_text version.now) TypeKind.VersionAnnotation) (O.view output.old).line_begun) }
    ensures err { OnErr result (Begins O.keeps (O.view output.old) (OutputCall.Ty (version_text version.now) TypeKind.VersionAnnotation ∷ [])
        (O.view output.new)) }
    ensures memory { IfErr result IsMemory }
{
    let text = format!(in alloc; "{version}")?;
    output.ty(text.as_str(), TypeKind::VersionAnnotation)
}
