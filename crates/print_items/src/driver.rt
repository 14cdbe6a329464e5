//! An output, driven call by call.

ghost use Rattle.std.specs.Prelude.{◌≡◌, ◌∷◌, ◌++◌, [], true, false, codes, IsTrue, OnOk, OnErr, IfErr};
ghost use Rattle.std.specs.Fmt.{decimal};
ghost use Rattle.semver.specs.Identifiers.{version_text};
ghost use Rattle.wit_model.specs.{Names.is_label, Names.is_version_text, Refusals.IsMemory};
ghost use Rattle.print_output.specs.OutputCall.{OutputCall, is_one_line, has_no_space_first};
ghost use Rattle.print_grammar.specs.{Calls.character_call, Calls.space, Keyword.escaped};
ghost use Rattle.print_items.specs.Drives.{Drives, LineIs, MayBegin};

use crate::spelled;
use print_output::{Output, TypeKind};
use semver::Version;
use std::alloc::Global;
use wit_model::Error;

/// An output whose calls are made one by one. Once it refuses one, no more are made.
#[derive(Drop)]
pub struct Driver<'a, O: Output> {
    pub output: &'a mut O,
    pub refused: bool,
    alloc: Global,
}

impl<'a, O: Output> Driver<'a, O> {
    /// An output that has refused nothing yet.
    pub fn new(output: &'a mut O, alloc: Global) -> Driver<'a, O>
        ensures same { result.output.ghost_name ≡ output.entry.ghost_name }
        ensures output { result.output.now ≡ output.old }
        ensures refused { result.refused ≡ false }
    {
        Driver {
            output,
            refused: false,
            alloc,
        }
    }

    /// Whether all calls were made.
    pub fn finish(&self) -> Result<(), Error>
        ensures ok { OnOk result (self.now.refused ≡ false) }
        ensures err { OnErr result (self.now.refused ≡ true) }
        ensures memory { IfErr result IsMemory }
    {
        if self.refused {
            return Err(Error::Memory);
        }
        Ok(())
    }
}

/// One call each, or two where the name says so.
impl<'a, O: Output> Driver<'a, O> {
    #[tactic(auto, using(crate::proofs::Fronts::fronts))]
    pub fn keyword(&mut self, text: &str)
        requires one_line { IsTrue (is_one_line text.now) }
        requires front { IsTrue (has_no_space_first text.now) }
        ensures calls { Drives O.view O.keeps self.old (OutputCall.Keyword text.now ∷ []) self.new }
        ensures line { LineIs O.view false self.new }
    {
        if !self.refused {
            self.refused = self.output.keyword(text).is_err();
        }
    }

    /// A keyword, and a blank behind it.
    #[tactic(auto, using(crate::proofs::Driven::driving))]
    pub fn keyword_and_blank(&mut self, text: &str)
        requires one_line { IsTrue (is_one_line text.now) }
        requires front { IsTrue (has_no_space_first text.now) }
        ensures calls { Drives O.view O.keeps self.old (OutputCall.Keyword text.now ∷ space ∷ []) self.new }
        ensures line { LineIs O.view false self.new }
    {
        self.keyword(text);
        self.str(" ");
    }

    pub fn str(&mut self, text: &str)
        requires one_line { IsTrue (is_one_line text.now) }
        requires front { MayBegin O.view self.old text.now }
        ensures calls { Drives O.view O.keeps self.old (OutputCall.Str text.now ∷ []) self.new }
        ensures line { LineIs O.view false self.new }
    {
        if !self.refused {
            self.refused = self.output.str(text).is_err();
        }
    }

    /// A word of a kind, as it stands.
    #[tactic(auto, using(crate::proofs::Fronts::fronts))]
    pub fn word(&mut self, text: &str, kind: TypeKind)
        requires one_line { IsTrue (is_one_line text.now) }
        requires front { IsTrue (has_no_space_first text.now) }
        ensures calls { Drives O.view O.keeps self.old (OutputCall.Ty text.now kind ∷ []) self.new }
        ensures line { LineIs O.view false self.new }
    {
        if !self.refused {
            self.refused = self.output.ty(text, kind).is_err();
        }
    }

    /// A name of a kind, as an id.
    #[tactic(auto, using(crate::proofs::OneLine::labels))]
    pub fn name(&mut self, label: &str, kind: TypeKind)
        requires { is_label label.now ≡ true }
        ensures calls { Drives O.view O.keeps self.old (OutputCall.Ty (escaped label.now) kind ∷ []) self.new }
        ensures line { LineIs O.view false self.new }
    {
        if !self.refused {
            self.refused = spelled::print_name(self.output, self.alloc, label, kind).is_err();
        }
    }

    /// The name of a parameter or a field, as an id.
    #[tactic(auto, using(crate::proofs::OneLine::labels))]
    pub fn param(&mut self, label: &str)
        requires { is_label label.now ≡ true }
        ensures calls { Drives O.view O.keeps self.old (OutputCall.Param (escaped label.now) ∷ []) self.new }
        ensures line { LineIs O.view false self.new }
    {
        if !self.refused {
            self.refused = spelled::print_param(self.output, self.alloc, label).is_err();
        }
    }

    /// The name of a case of a variant or an enum, or of a flag, as an id.
    #[tactic(auto, using(crate::proofs::OneLine::labels))]
    pub fn case(&mut self, label: &str)
        requires { is_label label.now ≡ true }
        ensures calls { Drives O.view O.keeps self.old (OutputCall.Case (escaped label.now) ∷ []) self.new }
        ensures line { LineIs O.view false self.new }
    {
        if !self.refused {
            self.refused = spelled::print_case(self.output, self.alloc, label).is_err();
        }
    }

    /// Text as it stands, without indentation.
    pub fn push_str(&mut self, text: &str)
        ensures calls { Drives O.view O.keeps self.old (OutputCall.PushStr text.now ∷ []) self.new }
    {
        if !self.refused {
            self.refused = self.output.push_str(text).is_err();
        }
    }

    /// The length of a list behind the type of its elements, without indentation.
    pub fn push_length(&mut self, length: u32)
        ensures calls { Drives O.view O.keeps self.old (OutputCall.PushStr (codes ", " ++ decimal length) ∷ []) self.new }
    {
        if !self.refused {
            self.refused = spelled::push_length(self.output, self.alloc, length).is_err();
        }
    }

    /// The length of a list behind the type of its elements, as other text.
    #[tactic(auto, using(crate::proofs::OneLine::lengths))]
    pub fn length(&mut self, length: u32)
        requires { LineIs O.view false self.old }
        ensures calls { Drives O.view O.keeps self.old (OutputCall.Str (codes ", " ++ decimal length) ∷ []) self.new }
        ensures line { LineIs O.view false self.new }
    {
        if !self.refused {
            self.refused = spelled::print_length(self.output, self.alloc, length).is_err();
        }
    }

    pub fn generic_args_start(&mut self)
        requires { LineIs O.view false self.old }
        ensures calls { Drives O.view O.keeps self.old (OutputCall.GenericArgsStart ∷ []) self.new }
        ensures line { LineIs O.view false self.new }
    {
        if !self.refused {
            self.refused = self.output.generic_args_start().is_err();
        }
    }

    pub fn generic_args_end(&mut self)
        requires { LineIs O.view false self.old }
        ensures calls { Drives O.view O.keeps self.old (OutputCall.GenericArgsEnd ∷ []) self.new }
        ensures line { LineIs O.view false self.new }
    {
        if !self.refused {
            self.refused = self.output.generic_args_end().is_err();
        }
    }

    /// A character of a string, escaped where it doesn't stand for itself.
    pub fn character(&mut self, c: char)
        ensures calls { Drives O.view O.keeps self.old (character_call c ∷ []) self.new }
    {
        if !self.refused {
            self.refused = spelled::print_character(self.output, self.alloc, c).is_err();
        }
    }

    /// The name of a feature, as an id.
    #[tactic(auto, using(crate::proofs::OneLine::labels))]
    pub fn feature(&mut self, label: &str)
        requires { is_label label.now ≡ true }
        ensures calls { Drives O.view O.keeps self.old (OutputCall.Str (escaped label.now) ∷ []) self.new }
        ensures line { LineIs O.view false self.new }
    {
        if !self.refused {
            self.refused = spelled::print_feature(self.output, self.alloc, label).is_err();
        }
    }

    /// A version in an attribute, behind other text in its line.
    pub fn plain_version(&mut self, version: &Version)
        requires same_line { LineIs O.view false self.old }
        requires version { is_version_text (version_text version.now) ≡ true }
        ensures calls { Drives O.view O.keeps self.old (OutputCall.Ty (version_text version.now) TypeKind.VersionAnnotation ∷ []) self.new }
        ensures line { LineIs O.view false self.new }
    {
        if !self.refused {
            self.refused = spelled::print_plain_version(self.output, self.alloc, version).is_err();
        }
    }

    /// A version after its mark, `@`.
    pub fn version(&mut self, version: &Version, kind: TypeKind)
        requires { is_version_text (version_text version.now) ≡ true }
        ensures calls { Drives O.view O.keeps self.old (OutputCall.Ty (64 ∷ version_text version.now) kind ∷ []) self.new }
        ensures line { LineIs O.view false self.new }
    {
        if !self.refused {
            self.refused = spelled::print_marked_version(
                self.output,
                self.alloc,
                version,
                kind,
            ).is_err();
        }
    }

    pub fn doc(&mut self, line: &str)
        requires { IsTrue (is_one_line line.now) }
        ensures calls { Drives O.view O.keeps self.old (OutputCall.Doc line.now ∷ []) self.new }
    {
        if !self.refused {
            self.refused = self.output.doc(line).is_err();
        }
    }

    pub fn indent_start(&mut self)
        requires { LineIs O.view false self.old }
        ensures calls { Drives O.view O.keeps self.old (OutputCall.IndentStart ∷ []) self.new }
    {
        if !self.refused {
            self.refused = self.output.indent_start().is_err();
        }
    }

    pub fn indent_end(&mut self)
        ensures calls { Drives O.view O.keeps self.old (OutputCall.IndentEnd ∷ []) self.new }
    {
        if !self.refused {
            self.refused = self.output.indent_end().is_err();
        }
    }

    pub fn newline(&mut self)
        ensures calls { Drives O.view O.keeps self.old (OutputCall.Newline ∷ []) self.new }
    {
        if !self.refused {
            self.refused = self.output.newline().is_err();
        }
    }

    pub fn semicolon(&mut self)
        requires { LineIs O.view false self.old }
        ensures calls { Drives O.view O.keeps self.old (OutputCall.Semicolon ∷ []) self.new }
    {
        if !self.refused {
            self.refused = self.output.semicolon().is_err();
        }
    }
}
