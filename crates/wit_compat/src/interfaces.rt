//! Whether interfaces of two `Resolve`s have the same sense: the same types and the same functions by name.

ghost use Rattle.std.specs.Prelude.{◌≡◌, ◌<◌, ◌↔◌, length, option_map, Some, IfOk, IsTrue};
ghost use Rattle.std.specs.{HashMap.get_by_text, List.Contains};
ghost use Rattle.indexmap.specs.IndexMap.{values};
ghost use Rattle.wit_model.specs.{Meaning.interface_sense, Meant.function_meaning, Meant.interface_meaning, Meant.interface_meaning_at, Meant.type_meaning_at, Parts.function_types, Text.text_of};
ghost use Rattle.compat_meaning.specs.TwoSides.{functions_sense, types_sense, AllSame, HasTypesInRange, IsSide};
ghost use Rattle.compat_meaning.specs.Table.{AllInRange};
ghost use Rattle.wit_model.specs.declared.model.{TypeId.TypeId as TypeNumber, Function.Function as FunctionModel};

use crate::declarations::same_type_meanings;
use crate::sense::same_function_senses;
use compat_meaning::pairs::Pairs;
use compat_meaning::side::Side;
use std::alloc::{AllocError, Global};
use wit_model::{Function, Interface, InterfaceId, Map, TypeId};

/// Whether a type declares what one of the others does under its name.
fn same_type_under(
    alloc: Global,
    left: &Side,
    right: &Side,
    name: &String,
    id: TypeId,
    others: &Map<String, TypeId>,
    pairs: &mut Pairs,
) -> Result<bool, AllocError>
    requires left { IsSide left.now }
    requires right { IsSide right.now }
    requires id { id.0 < length left.now.resolve.now.types.items }
    requires others { (other : TypeNumber) → Contains (values others.now) other → other.0 < length right.now.resolve.now.types.items }
    requires pairs { AllSame left.now.resolve.now right.now.resolve.now pairs.old.keys }
    ensures exact { IfOk result (λ y. IsTrue y
        ↔ (option_map (λ other. type_meaning_at right.now.resolve.now other.0) (get_by_text others.now (text_of name.now))
        ≡ Some (type_meaning_at left.now.resolve.now id.0))) }
    ensures kept { AllSame left.now.resolve.now right.now.resolve.now pairs.new.keys }
{
    match others.get(name.as_str()) {
        Some(other) => same_type_meanings(alloc, left, right, id, *other, pairs),
        None => Ok(false),
    }
}

/// Whether two lists of named types declare the same by name.
fn same_named_types(
    alloc: Global,
    left: &Side,
    right: &Side,
    types: &Map<String, TypeId>,
    others: &Map<String, TypeId>,
    pairs: &mut Pairs,
) -> Result<bool, AllocError>
    requires left { IsSide left.now }
    requires right { IsSide right.now }
    requires types { (id : TypeNumber) → Contains (values types.now) id → id.0 < length left.now.resolve.now.types.items }
    requires others { (id : TypeNumber) → Contains (values others.now) id → id.0 < length right.now.resolve.now.types.items }
    requires pairs { AllSame left.now.resolve.now right.now.resolve.now pairs.old.keys }
    ensures exact { IfOk result (λ y. IsTrue y ↔ (types_sense left.now.resolve.now types.now.entries ≡ types_sense right.now.resolve.now others.now.entries)) }
    ensures kept { AllSame left.now.resolve.now right.now.resolve.now pairs.new.keys }
{
    if types.len() != others.len() {
        return Ok(false);
    }
    for (name, id) in types {
        if !same_type_under(alloc, left, right, name, *id, others, pairs)? {
            return Ok(false);
        }
    }
    Ok(true)
}

/// Whether a function has the signature and the external id of one of the others under its name.
fn same_function_under(
    alloc: Global,
    left: &Side,
    right: &Side,
    name: &String,
    function: &Function,
    others: &Map<String, Function>,
    pairs: &mut Pairs,
) -> Result<bool, AllocError>
    requires left { IsSide left.now }
    requires right { IsSide right.now }
    requires function { AllInRange left.now.resolve.now (function_types function.now) }
    requires others { (other : FunctionModel) → Contains (values others.now) other → AllInRange right.now.resolve.now (function_types other) }
    requires pairs { AllSame left.now.resolve.now right.now.resolve.now pairs.old.keys }
    ensures exact { IfOk result (λ y. IsTrue y
        ↔ (option_map (function_meaning right.now.resolve.now) (get_by_text others.now (text_of name.now))
        ≡ Some (function_meaning left.now.resolve.now function.now))) }
    ensures kept { AllSame left.now.resolve.now right.now.resolve.now pairs.new.keys }
{
    match others.get(name.as_str()) {
        Some(other) => same_function_senses(alloc, left, right, function, other, pairs),
        None => Ok(false),
    }
}

/// Whether two lists of functions are the same by name.
fn same_functions(
    alloc: Global,
    left: &Side,
    right: &Side,
    functions: &Map<String, Function>,
    others: &Map<String, Function>,
    pairs: &mut Pairs,
) -> Result<bool, AllocError>
    requires left { IsSide left.now }
    requires right { IsSide right.now }
    requires functions { (f : FunctionModel) → Contains (values functions.now) f → AllInRange left.now.resolve.now (function_types f) }
    requires others { (f : FunctionModel) → Contains (values others.now) f → AllInRange right.now.resolve.now (function_types f) }
    requires pairs { AllSame left.now.resolve.now right.now.resolve.now pairs.old.keys }
    ensures exact { IfOk result (λ y. IsTrue y
        ↔ (functions_sense left.now.resolve.now functions.now.entries ≡ functions_sense right.now.resolve.now others.now.entries)) }
    ensures kept { AllSame left.now.resolve.now right.now.resolve.now pairs.new.keys }
{
    if functions.len() != others.len() {
        return Ok(false);
    }
    for (name, function) in functions {
        if !same_function_under(alloc, left, right, name, function, others, pairs)? {
            return Ok(false);
        }
    }
    Ok(true)
}

/// Whether two interfaces have the same types and functions by name.
fn same_members(
    alloc: Global,
    left: &Side,
    right: &Side,
    a: &Interface,
    b: &Interface,
    pairs: &mut Pairs,
) -> Result<bool, AllocError>
    requires left { IsSide left.now }
    requires right { IsSide right.now }
    requires a { HasTypesInRange left.now.resolve.now a.now }
    requires b { HasTypesInRange right.now.resolve.now b.now }
    requires pairs { AllSame left.now.resolve.now right.now.resolve.now pairs.old.keys }
    ensures exact { IfOk result (λ y. IsTrue y
        ↔ (interface_sense (interface_meaning left.now.resolve.now a.now) ≡ interface_sense (interface_meaning right.now.resolve.now b.now))) }
    ensures kept { AllSame left.now.resolve.now right.now.resolve.now pairs.new.keys }
{
    if !same_named_types(alloc, left, right, &a.types, &b.types, pairs)? {
        return Ok(false);
    }
    same_functions(alloc, left, right, &a.functions, &b.functions, pairs)
}

/// Whether two interfaces, by number, have the same sense.
pub(crate) fn same_interfaces(
    alloc: Global,
    left: &Side,
    right: &Side,
    a: InterfaceId,
    b: InterfaceId,
    pairs: &mut Pairs,
) -> Result<bool, AllocError>
    requires left { IsSide left.now }
    requires right { IsSide right.now }
    requires a { a.0 < length left.now.resolve.now.interfaces.items }
    requires b { b.0 < length right.now.resolve.now.interfaces.items }
    requires pairs { AllSame left.now.resolve.now right.now.resolve.now pairs.old.keys }
    ensures exact { IfOk result (λ y. IsTrue y
        ↔ (interface_sense (interface_meaning_at left.now.resolve.now a.0) ≡ interface_sense (interface_meaning_at right.now.resolve.now b.0))) }
    ensures kept { AllSame left.now.resolve.now right.now.resolve.now pairs.new.keys }
{
    let interface = &left.resolve.interfaces[a.0 as usize];
    let other = &right.resolve.interfaces[b.0 as usize];
    same_members(alloc, left, right, interface, other, pairs)
}
