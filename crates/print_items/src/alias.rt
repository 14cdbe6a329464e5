//! Types that `type` declares, printed.
#![tactic(auto, using(crate::proofs::Driven::driving))]

ghost use Rattle.std.specs.Prelude.{◌≡◌, true, false, IsTrue};
ghost use Rattle.wit_model.specs.{Names.is_label, Parts.handle_target, Rules.in_list, Rules.passes, Valid.IsValid};
ghost use Rattle.print_items.specs.{Drives.Drives, Drives.LineIs, Shown.named_handle, Shown.shown_map, Shown.shown_payload, Shown.shown_type};
ghost use Rattle.print_items.specs.DeclaredCalls.{alias_calls, alias_start_calls, angle_calls, angled_calls, carrier_calls, fixed_list_calls, is_word, map_calls, two_calls};
ghost use Rattle.print_items.specs.TypeParts.{is_labelled, kind_calls, may_be_unnamed};
ghost use Rattle.print_output.specs.OutputCall.{is_one_line, has_no_space_first};
ghost use Rattle.print_grammar.specs.Tree.Declared.{AliasOf};
ghost use Rattle.print_grammar.specs.{Tree.TypeTree.FixedListOf, Tree.TypeTree.ListOf, Calls.declared_calls, Calls.type_calls, WellNamed.is_well_type};

use crate::driver::Driver;
use crate::type_name::{name_of, write_handle_of, write_type, write_unnamed};
use print_output::{Output, TypeKind};
use wit_model::{Handle, Resolve, Type, TypeId};

/// A name for a type, up to the sign.
fn write_alias_start<O: Output>(driver: &mut Driver<O>, name: &str, kind: TypeKind)
    requires { is_label name.now ≡ true }
    ensures calls { Drives O.view O.keeps driver.old (alias_start_calls name.now kind) driver.new }
    ensures line { LineIs O.view false driver.new }
{
    driver.keyword_and_blank("type");
    driver.name(name, kind);
    driver.str(" = ");
}

/// A name for a type.
pub fn write_type_alias<O: Output>(driver: &mut Driver<O>, resolve: &Resolve, name: &str, ty: &Type)
    requires valid { IsValid resolve.now }
    requires label { is_label name.now ≡ true }
    requires well { is_well_type (shown_type resolve.now ty.now) ≡ true }
    requires word { is_word (shown_type resolve.now ty.now) ≡ true }
    ensures calls { Drives O.view O.keeps driver.old (declared_calls true (AliasOf name.now (shown_type resolve.now ty.now))) driver.new }
{
    write_alias_start(driver, name, TypeKind::TypeName);
    write_type(driver, resolve, ty);
    driver.semicolon();
}

/// A handle with a name of its own: `own` is written.
fn write_named_handle<O: Output>(driver: &mut Driver<O>, resolve: &Resolve, handle: &Handle)
    requires { is_labelled resolve.now (handle_target handle.now) ≡ true }
    ensures calls { Drives O.view O.keeps driver.old (type_calls (named_handle resolve.now handle.now)) driver.new }
    ensures line { LineIs O.view false driver.new }
{
    match handle {
        Handle::Own(id) => write_handle_of(driver, "own", name_of(resolve, *id)),
        Handle::Borrow(id) => write_handle_of(driver, "borrow", name_of(resolve, *id)),
    }
}

/// A name for a handle.
pub fn write_handle_alias<O: Output>(
    driver: &mut Driver<O>,
    resolve: &Resolve,
    name: &str,
    handle: &Handle,
)
    requires label { is_label name.now ≡ true }
    requires labelled { is_labelled resolve.now (handle_target handle.now) ≡ true }
    ensures calls { Drives O.view O.keeps driver.old (declared_calls true (AliasOf name.now (named_handle resolve.now handle.now))) driver.new }
{
    write_alias_start(driver, name, TypeKind::Resource);
    write_named_handle(driver, resolve, handle);
    driver.semicolon();
}

/// A kind without a name of its own, behind other text in its line.
fn write_kind_behind<O: Output>(driver: &mut Driver<O>, resolve: &Resolve, id: TypeId)
    requires same_line { LineIs O.view false driver.old }
    requires valid { IsValid resolve.now }
    requires in_range { in_list resolve.now.types.items id.0 ≡ true }
    requires unnamed { may_be_unnamed resolve.now id ≡ true }
    ensures calls { Drives O.view O.keeps driver.old (kind_calls resolve.now id) driver.new }
    ensures line { LineIs O.view false driver.new }
{
    write_unnamed(driver, resolve, id);
}

/// A name for a tuple, an option or a result, which stand as where they are used.
pub fn write_kind_alias<O: Output>(
    driver: &mut Driver<O>,
    resolve: &Resolve,
    id: TypeId,
    name: &str,
    kind: TypeKind,
)
    requires label { is_label name.now ≡ true }
    requires valid { IsValid resolve.now }
    requires in_range { in_list resolve.now.types.items id.0 ≡ true }
    requires unnamed { may_be_unnamed resolve.now id ≡ true }
    ensures calls { Drives O.view O.keeps driver.old (alias_calls name.now kind (kind_calls resolve.now id)) driver.new }
{
    write_alias_start(driver, name, kind);
    write_kind_behind(driver, resolve, id);
    driver.semicolon();
}

/// A word and a bracket that is no call of its own.
fn write_angle<O: Output>(driver: &mut Driver<O>, word: &str)
    requires one_line { IsTrue (is_one_line word.now) }
    requires front { IsTrue (has_no_space_first word.now) }
    ensures calls { Drives O.view O.keeps driver.old (angle_calls word.now) driver.new }
    ensures line { LineIs O.view false driver.new }
{
    driver.word(word, TypeKind::BuiltIn);
    driver.str("<");
}

/// A word, and a type in such brackets.
fn write_angled<O: Output>(driver: &mut Driver<O>, resolve: &Resolve, word: &str, ty: &Type)
    requires one_line { IsTrue (is_one_line word.now) }
    requires front { IsTrue (has_no_space_first word.now) }
    requires valid { IsValid resolve.now }
    requires well { is_well_type (shown_type resolve.now ty.now) ≡ true }
    ensures calls { Drives O.view O.keeps driver.old (angled_calls word.now (shown_type resolve.now ty.now)) driver.new }
    ensures line { LineIs O.view false driver.new }
{
    write_angle(driver, word);
    write_type(driver, resolve, ty);
    driver.str(">");
}

/// A name for a list.
pub fn write_list_alias<O: Output>(driver: &mut Driver<O>, resolve: &Resolve, name: &str, ty: &Type)
    requires valid { IsValid resolve.now }
    requires label { is_label name.now ≡ true }
    requires well { is_well_type (shown_type resolve.now ty.now) ≡ true }
    ensures calls { Drives O.view O.keeps driver.old (declared_calls true (AliasOf name.now (ListOf (shown_type resolve.now ty.now)))) driver.new }
{
    write_alias_start(driver, name, TypeKind::List);
    write_angled(driver, resolve, "list", ty);
    driver.semicolon();
}

/// A type and a length, in such brackets.
fn write_fixed_list<O: Output>(driver: &mut Driver<O>, resolve: &Resolve, ty: &Type, length: u32)
    requires valid { IsValid resolve.now }
    requires well { is_well_type (shown_type resolve.now ty.now) ≡ true }
    ensures calls { Drives O.view O.keeps driver.old (fixed_list_calls (shown_type resolve.now ty.now) length) driver.new }
    ensures line { LineIs O.view false driver.new }
{
    write_angle(driver, "list");
    write_type(driver, resolve, ty);
    driver.length(length);
    driver.str(">");
}

/// A name for a list of a fixed length.
pub fn write_fixed_list_alias<O: Output>(
    driver: &mut Driver<O>,
    resolve: &Resolve,
    name: &str,
    ty: &Type,
    length: u32,
)
    requires valid { IsValid resolve.now }
    requires label { is_label name.now ≡ true }
    requires well { is_well_type (shown_type resolve.now ty.now) ≡ true }
    ensures calls { Drives O.view O.keeps driver.old (declared_calls true (AliasOf name.now (FixedListOf (shown_type resolve.now ty.now) length))) driver.new }
{
    write_alias_start(driver, name, TypeKind::List);
    write_fixed_list(driver, resolve, ty, length);
    driver.semicolon();
}

/// Two types, with a comma between.
fn write_two<O: Output>(driver: &mut Driver<O>, resolve: &Resolve, first: &Type, second: &Type)
    requires same_line { LineIs O.view false driver.old }
    requires valid { IsValid resolve.now }
    requires first { is_well_type (shown_type resolve.now first.now) ≡ true }
    requires second { is_well_type (shown_type resolve.now second.now) ≡ true }
    ensures calls { Drives O.view O.keeps driver.old (two_calls (shown_type resolve.now first.now) (shown_type resolve.now second.now)) driver.new }
    ensures line { LineIs O.view false driver.new }
{
    write_type(driver, resolve, first);
    driver.str(", ");
    write_type(driver, resolve, second);
}

/// Two types in such brackets.
fn write_map<O: Output>(driver: &mut Driver<O>, resolve: &Resolve, key: &Type, value: &Type)
    requires valid { IsValid resolve.now }
    requires key { is_well_type (shown_type resolve.now key.now) ≡ true }
    requires value { is_well_type (shown_type resolve.now value.now) ≡ true }
    ensures calls { Drives O.view O.keeps driver.old (map_calls (shown_type resolve.now key.now) (shown_type resolve.now value.now)) driver.new }
    ensures line { LineIs O.view false driver.new }
{
    write_angle(driver, "map");
    write_two(driver, resolve, key, value);
    driver.str(">");
}

/// A name for a map.
pub fn write_map_alias<O: Output>(
    driver: &mut Driver<O>,
    resolve: &Resolve,
    name: &str,
    key: &Type,
    value: &Type,
)
    requires valid { IsValid resolve.now }
    requires label { is_label name.now ≡ true }
    requires key { is_well_type (shown_type resolve.now key.now) ≡ true }
    requires value { is_well_type (shown_type resolve.now value.now) ≡ true }
    ensures calls { Drives O.view O.keeps driver.old (declared_calls true (AliasOf name.now (shown_map resolve.now key.now value.now))) driver.new }
{
    write_alias_start(driver, name, TypeKind::Map);
    write_map(driver, resolve, key, value);
    driver.semicolon();
}

/// A word alone, or with a payload.
fn write_carrier<O: Output>(
    driver: &mut Driver<O>,
    resolve: &Resolve,
    word: &str,
    payload: &Option<Type>,
)
    requires one_line { IsTrue (is_one_line word.now) }
    requires front { IsTrue (has_no_space_first word.now) }
    requires valid { IsValid resolve.now }
    requires well { passes is_well_type (shown_payload resolve.now payload.now) ≡ true }
    ensures calls { Drives O.view O.keeps driver.old (carrier_calls word.now (shown_payload resolve.now payload.now)) driver.new }
    ensures line { LineIs O.view false driver.new }
{
    match payload {
        Some(ty) => write_angled(driver, resolve, word, ty),
        None => driver.word(word, TypeKind::BuiltIn),
    }
}

/// A name for a future or a stream.
pub fn write_carrier_alias<O: Output>(
    driver: &mut Driver<O>,
    resolve: &Resolve,
    name: &str,
    kind: TypeKind,
    word: &str,
    payload: &Option<Type>,
)
    requires one_line { IsTrue (is_one_line word.now) }
    requires front { IsTrue (has_no_space_first word.now) }
    requires valid { IsValid resolve.now }
    requires label { is_label name.now ≡ true }
    requires well { passes is_well_type (shown_payload resolve.now payload.now) ≡ true }
    ensures calls { Drives O.view O.keeps driver.old (alias_calls name.now kind (carrier_calls word.now (shown_payload resolve.now payload.now))) driver.new }
{
    write_alias_start(driver, name, kind);
    write_carrier(driver, resolve, word, payload);
    driver.semicolon();
}
