//! Types where they are used, printed.
#![tactic(auto, using(crate::proofs::Driven::driving))]

ghost use Rattle.std.specs.Prelude.{◌≡◌, ◌++◌, ◌∷◌, ◌≤◌, [], codes, Bool, true, false, List, option_to_list, slice_get, take, IsTrue};
ghost use Rattle.std.specs.Fmt.{decimal};
ghost use Rattle.wit_model.specs.{Names.is_label, Parts.member_types, Parts.handle_target, Rules.in_list, Rules.is_named_kind, Rules.passes, Types.number_of};
ghost use Rattle.wit_model.specs.Valid.{IsValid};
ghost use Rattle.print_items.specs.{Drives.Drives, Drives.LineIs, Drives.MayFollow, Shown.present_name, Shown.shown_type, Shown.type_name, Shown.used_type};
ghost use Rattle.print_items.specs.TypeParts.{carrier_end, carrier_start, comma_calls, few_types as few_types_lem, handle_start, handles_label, is_labelled, is_primitive, kind_calls, kind_end, kind_start, may_be_unnamed, result_end, result_start, word_start};
ghost use Rattle.print_output.specs.OutputCall.{OutputCall, is_one_line, has_no_space_first};
ghost use Rattle.print_grammar.specs.{Calls.handle_calls, Calls.type_calls, Tree.TypeTree, WellNamed.is_well_type};

use crate::driver::Driver;
use print_output::{Output, TypeKind};
use wit_model::{Handle, Resolve, Result_, Type, TypeDefKind, TypeId};

/// The word of a primitive type.
fn type_word(ty: &Type) -> &'static str
    requires { is_primitive ty.now ≡ true }
    ensures word { (trees : List TypeTree) → type_calls (used_type trees ty.now) ≡ OutputCall.Ty result.now TypeKind.BuiltIn ∷ [] }
    ensures one_line { IsTrue (is_one_line result.now) }
    ensures front { IsTrue (has_no_space_first result.now) }
{
    match ty {
        Type::Bool => "bool",
        Type::U8 => "u8",
        Type::U16 => "u16",
        Type::U32 => "u32",
        Type::U64 => "u64",
        Type::S8 => "s8",
        Type::S16 => "s16",
        Type::S32 => "s32",
        Type::S64 => "s64",
        Type::F32 => "f32",
        Type::F64 => "f64",
        Type::Char => "char",
        Type::String => "string",
        Type::ErrorContext => "error-context",
        Type::Id(_) => "",
    }
}

/// A primitive type.
pub(crate) fn write_primitive<O: Output>(driver: &mut Driver<O>, resolve: &Resolve, ty: &Type)
    requires { is_primitive ty.now ≡ true }
    ensures calls { Drives O.view O.keeps driver.old (type_calls (shown_type resolve.now ty.now)) driver.new }
    ensures line { LineIs O.view false driver.new }
{
    let _resolve = resolve;
    driver.word(type_word(ty), TypeKind::BuiltIn);
}

/// A name, and the empty text where there is none.
pub fn present<'a>(name: &'a Option<String>) -> &'a str
    ensures { result.now ≡ present_name name.now }
{
    match name {
        Some(name) => name.as_str(),
        None => "",
    }
}

/// The name of a type number.
pub(crate) fn name_of<'a>(resolve: &'a Resolve, id: TypeId) -> &'a str
    requires { in_list resolve.now.types.items id.0 ≡ true }
    ensures { result.now ≡ type_name resolve.now id }
{
    let def = &resolve.types[id.0 as usize];
    present(&def.name)
}

/// A word, and a resource in angle brackets.
pub(crate) fn write_handle_of<O: Output>(driver: &mut Driver<O>, word: &str, resource: &str)
    requires one_line { IsTrue (is_one_line word.now) }
    requires front { IsTrue (has_no_space_first word.now) }
    requires label { is_label resource.now ≡ true }
    ensures calls { Drives O.view O.keeps driver.old (handle_calls word.now resource.now) driver.new }
    ensures line { LineIs O.view false driver.new }
{
    driver.word(word, TypeKind::BuiltIn);
    driver.generic_args_start();
    driver.name(resource, TypeKind::Resource);
    driver.generic_args_end();
}

/// A handle without a name of its own: an owned resource is written as the resource.
fn write_handle<O: Output>(driver: &mut Driver<O>, resolve: &Resolve, handle: &Handle)
    requires { is_labelled resolve.now (handle_target handle.now) ≡ true }
    ensures calls { Drives O.view O.keeps driver.old (handle_start resolve.now handle.now) driver.new }
    ensures line { LineIs O.view false driver.new }
{
    match handle {
        Handle::Own(id) => driver.name(name_of(resolve, *id), TypeKind::Resource),
        Handle::Borrow(id) => write_handle_of(driver, "borrow", name_of(resolve, *id)),
    }
}

/// A word, and the start of what stands in angle brackets.
fn write_word_start<O: Output>(driver: &mut Driver<O>, word: &str)
    requires one_line { IsTrue (is_one_line word.now) }
    requires front { IsTrue (has_no_space_first word.now) }
    ensures calls { Drives O.view O.keeps driver.old (word_start word.now) driver.new }
    ensures line { LineIs O.view false driver.new }
{
    driver.word(word, TypeKind::BuiltIn);
    driver.generic_args_start();
}

fn write_result_start<O: Output>(driver: &mut Driver<O>, of: &Result_)
    ensures calls { Drives O.view O.keeps driver.old (result_start of.now.ok of.now.err) driver.new }
    ensures line { LineIs O.view false driver.new }
{
    if of.ok.is_some() {
        return write_word_start(driver, "result");
    }
    if of.err.is_some() {
        write_word_start(driver, "result");
        return driver.str("_, ");
    }
    driver.word("result", TypeKind::BuiltIn);
}

/// The word of a future or a stream, with what stands before its payload.
fn write_carrier_start<O: Output>(
    driver: &mut Driver<O>,
    alone: &str,
    with: &str,
    payload: &Option<Type>,
)
    ensures calls { Drives O.view O.keeps driver.old (carrier_start alone.now with.now payload.now) driver.new }
{
    match payload {
        Some(_) => driver.push_str(with),
        None => driver.push_str(alone),
    }
}

/// What stands before the types of a kind without a name of its own.
fn write_kind_start<O: Output>(driver: &mut Driver<O>, resolve: &Resolve, kind: &TypeDefKind)
    requires { handles_label resolve.now kind.now ≡ true }
    ensures calls { Drives O.view O.keeps driver.old (kind_start resolve.now kind.now) driver.new }
{
    match kind {
        TypeDefKind::Handle(handle) => write_handle(driver, resolve, handle),
        TypeDefKind::Tuple(_) => write_word_start(driver, "tuple"),
        TypeDefKind::Option(_) => write_word_start(driver, "option"),
        TypeDefKind::Result(of) => write_result_start(driver, of),
        TypeDefKind::List(_) => write_word_start(driver, "list"),
        TypeDefKind::Map(_, _) => write_word_start(driver, "map"),
        TypeDefKind::FixedLengthList(_, _) => write_word_start(driver, "list"),
        TypeDefKind::Future(payload) => write_carrier_start(driver, "future", "future<", payload),
        TypeDefKind::Stream(payload) => write_carrier_start(driver, "stream", "stream<", payload),
        TypeDefKind::Record(_) => {}
        TypeDefKind::Resource => {}
        TypeDefKind::Flags(_) => {}
        TypeDefKind::Variant(_) => {}
        TypeDefKind::Enum(_) => {}
        TypeDefKind::Type_(_) => {}
    }
}

fn write_result_end<O: Output>(driver: &mut Driver<O>, of: &Result_)
    requires { MayFollow O.view driver.old (result_end of.now.ok of.now.err) }
    ensures calls { Drives O.view O.keeps driver.old (result_end of.now.ok of.now.err) driver.new }
{
    match of.ok {
        Some(_) => driver.generic_args_end(),
        None => match of.err {
            Some(_) => driver.generic_args_end(),
            None => {}
        },
    }
}

fn write_carrier_end<O: Output>(driver: &mut Driver<O>, payload: &Option<Type>)
    ensures calls { Drives O.view O.keeps driver.old (carrier_end payload.now) driver.new }
{
    match payload {
        Some(_) => driver.push_str(">"),
        None => {}
    }
}

fn write_length<O: Output>(driver: &mut Driver<O>, length: u32)
    requires { LineIs O.view false driver.old }
    ensures calls { Drives O.view O.keeps driver.old (OutputCall.PushStr (codes ", " ++ decimal length) ∷ OutputCall.GenericArgsEnd ∷ []) driver.new }
    ensures line { LineIs O.view false driver.new }
{
    driver.push_length(length);
    driver.generic_args_end();
}

/// What stands behind the types of a kind without a name of its own.
fn write_kind_end<O: Output>(driver: &mut Driver<O>, kind: &TypeDefKind)
    requires { MayFollow O.view driver.old (kind_end kind.now) }
    ensures calls { Drives O.view O.keeps driver.old (kind_end kind.now) driver.new }
{
    match kind {
        TypeDefKind::Tuple(_) => driver.generic_args_end(),
        TypeDefKind::Option(_) => driver.generic_args_end(),
        TypeDefKind::Result(of) => write_result_end(driver, of),
        TypeDefKind::List(_) => driver.generic_args_end(),
        TypeDefKind::Map(_, _) => driver.generic_args_end(),
        TypeDefKind::FixedLengthList(_, length) => write_length(driver, *length),
        TypeDefKind::Future(payload) => write_carrier_end(driver, payload),
        TypeDefKind::Stream(payload) => write_carrier_end(driver, payload),
        TypeDefKind::Handle(_) => {}
        TypeDefKind::Record(_) => {}
        TypeDefKind::Resource => {}
        TypeDefKind::Flags(_) => {}
        TypeDefKind::Variant(_) => {}
        TypeDefKind::Enum(_) => {}
        TypeDefKind::Type_(_) => {}
    }
}

/// A room for two types, and how many of it are taken.
type Few = ([Type; 2], usize);

/// The types that are given, in front.
fn few_of(first: Option<Type>, second: Option<Type>) -> Few
    ensures few { take result.1 result.0 ≡ option_to_list first ++ option_to_list second }
    ensures small { result.1 ≤ 2 }
{
    match first {
        Some(first) => match second {
            Some(second) => ([first, second], 2),
            None => ([first, first], 1),
        },
        None => match second {
            Some(second) => ([second, second], 1),
            None => ([Type::Bool, Type::Bool], 0),
        },
    }
}

/// The types of a kind without a name of its own that is no tuple, which are two at most, in front.
fn few_types(kind: &TypeDefKind) -> Few
    ensures few { take result.1 result.0 ≡ few_types_lem kind.now }
    ensures small { result.1 ≤ 2 }
{
    match kind {
        TypeDefKind::Option(ty) => few_of(Some(*ty), None),
        TypeDefKind::Result(of) => few_of(of.ok, of.err),
        TypeDefKind::List(ty) => few_of(Some(*ty), None),
        TypeDefKind::Map(key, value) => few_of(Some(*key), Some(*value)),
        TypeDefKind::FixedLengthList(ty, _) => few_of(Some(*ty), None),
        TypeDefKind::Future(payload) => few_of(*payload, None),
        TypeDefKind::Stream(payload) => few_of(*payload, None),
        TypeDefKind::Tuple(_) => few_of(None, None),
        TypeDefKind::Handle(_) => few_of(None, None),
        TypeDefKind::Record(_) => few_of(None, None),
        TypeDefKind::Resource => few_of(None, None),
        TypeDefKind::Flags(_) => few_of(None, None),
        TypeDefKind::Variant(_) => few_of(None, None),
        TypeDefKind::Enum(_) => few_of(None, None),
        TypeDefKind::Type_(_) => few_of(None, None),
    }
}

fn one_of(types: &[Type], number: usize) -> Option<Type>
    ensures { result ≡ slice_get types.now number }
{
    match types.get(number) {
        Some(ty) => Some(*ty),
        None => None,
    }
}

/// The types of a kind without a name of its own: those of a tuple where they stand, and else the few.
fn kind_types<'a>(kind: &'a TypeDefKind, few: &'a [Type]) -> &'a [Type]
    requires unnamed { is_named_kind kind.now ≡ false }
    requires few { few.now ≡ few_types_lem kind.now }
    ensures { result.now ≡ member_types kind.entry.now }
{
    match kind {
        TypeDefKind::Tuple(tuple) => &tuple.types,
        TypeDefKind::Option(_) => few,
        TypeDefKind::Result(_) => few,
        TypeDefKind::List(_) => few,
        TypeDefKind::Map(_, _) => few,
        TypeDefKind::FixedLengthList(_, _) => few,
        TypeDefKind::Future(_) => few,
        TypeDefKind::Stream(_) => few,
        TypeDefKind::Handle(_) => few,
        TypeDefKind::Record(_) => few,
        TypeDefKind::Resource => few,
        TypeDefKind::Flags(_) => few,
        TypeDefKind::Variant(_) => few,
        TypeDefKind::Enum(_) => few,
        TypeDefKind::Type_(_) => few,
    }
}

/// A comma before each type but the first.
#[tactic(auto, using(crate::proofs::Driven::driving, crate::proofs::Fronts::fronts))]
fn write_comma<O: Output>(driver: &mut Driver<O>, number: usize)
    ensures calls { Drives O.view O.keeps driver.old (comma_calls number) driver.new }
{
    if number != 0 {
        driver.str(", ");
    }
}

/// The kind of a type number that is written without its name, if it has one. No call is deeper than the kind has unnamed levels.
#[cycle(types)]
pub(crate) fn write_unnamed<O: Output>(driver: &mut Driver<O>, resolve: &Resolve, id: TypeId)
    requires valid { IsValid resolve.now }
    requires in_range { in_list resolve.now.types.items id.0 ≡ true }
    requires unnamed { may_be_unnamed resolve.now id ≡ true }
    ensures calls { Drives O.view O.keeps driver.old (kind_calls resolve.now id) driver.new }
{
    let def = &resolve.types[id.0 as usize];
    write_kind_start(driver, resolve, &def.kind);
    let few = few_types(&def.kind);
    let types = kind_types(&def.kind, &few.0[..few.1]);
    for number in 0..types.len() {
        if driver.refused {
            return;
        }
        let part = one_of(types, number).unwrap();
        write_comma(driver, number);
        write_type_name(driver, resolve, &part);
    }
    write_kind_end(driver, &def.kind);
}

/// A type where it is used: its name, or else its kind.
#[cycle(types)]
pub fn write_type_name<O: Output>(driver: &mut Driver<O>, resolve: &Resolve, ty: &Type)
    requires valid { IsValid resolve.now }
    requires in_range { passes (in_list resolve.now.types.items) (number_of ty.now) ≡ true }
    ensures calls { Drives O.view O.keeps driver.old (type_calls (shown_type resolve.now ty.now)) driver.new }
{
    let id = match ty {
        Type::Id(id) => *id,
        _ => return write_primitive(driver, resolve, ty),
    };
    let def = &resolve.types[id.0 as usize];
    match &def.name {
        Some(name) => driver.name(name, TypeKind::Other),
        None => write_unnamed(driver, resolve, id),
    }
}

/// A type behind other text in its line.
pub(crate) fn write_type<O: Output>(driver: &mut Driver<O>, resolve: &Resolve, ty: &Type)
    requires same_line { LineIs O.view false driver.old }
    requires valid { IsValid resolve.now }
    requires well { is_well_type (shown_type resolve.now ty.now) ≡ true }
    ensures calls { Drives O.view O.keeps driver.old (type_calls (shown_type resolve.now ty.now)) driver.new }
    ensures line { LineIs O.view false driver.new }
{
    write_type_name(driver, resolve, ty);
}
