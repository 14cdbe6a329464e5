//! Whether types of two `Resolve`s stand for the same: named types by place and name, unnamed ones by what they are made of.

ghost use Rattle.std.specs.Prelude.{◌≡◌, ◌↔◌, map, IfOk, IsTrue};
ghost use Rattle.wit_model.specs.{Meant.function_meaning, Meant.signature_of, Parts.function_types, Text.optional_text, Types.type_tree};
ghost use Rattle.compat_meaning.specs.{TwoSides.AllSame, TwoSides.IsSide, TwoSides.SameType, Table.AllInRange, Table.InRange};

use crate::functions::{same_shapes, value_types};
use crate::look::look_at;
use compat_meaning::follow::number_of;
use compat_meaning::look::Look;
use compat_meaning::pairs::Pairs;
use compat_meaning::side::Side;
use std::alloc::{AllocError, Global};
use wit_model::{Function, Type};

/// Puts the numbers of two types that stand for the same into the table.
fn remember(
    left: &Side,
    right: &Side,
    a: Type,
    b: Type,
    pairs: &mut Pairs,
) -> Result<(), AllocError>
    requires same { SameType left.now.resolve.now right.now.resolve.now a b }
    requires pairs { AllSame left.now.resolve.now right.now.resolve.now pairs.old.keys }
    ensures { AllSame left.now.resolve.now right.now.resolve.now pairs.new.keys }
{
    match number_of(a) {
        Some(a) => match number_of(b) {
            Some(b) => {
                pairs.insert((a, b))?;
                Ok(())
            }
            None => Ok(()),
        },
        None => Ok(()),
    }
}

/// Whether two types stand for the same. Each pair of numbers is looked into once: the table keeps those that stand for the same.
pub(crate) fn same_type(
    alloc: Global,
    left: &Side,
    right: &Side,
    a: Type,
    b: Type,
    pairs: &mut Pairs,
) -> Result<bool, AllocError>
    requires left { IsSide left.now }
    requires right { IsSide right.now }
    requires a { InRange left.now.resolve.now a }
    requires b { InRange right.now.resolve.now b }
    requires pairs { AllSame left.now.resolve.now right.now.resolve.now pairs.old.keys }
    ensures exact { IfOk result (λ y. IsTrue y ↔ SameType left.now.resolve.now right.now.resolve.now a b) }
    ensures kept { AllSame left.now.resolve.now right.now.resolve.now pairs.new.keys }
{
    match look_at(alloc, left, right, a, b, pairs)? {
        Look::Known(known) => Ok(known),
        Look::Parts(xs, ys) => {
            for (i, x) in xs.iter().enumerate() {
                if !same_type(alloc, left, right, *x, ys[i], pairs)? {
                    return Ok(false);
                }
            }
            remember(left, right, a, b, pairs)?;
            Ok(true)
        }
    }
}

/// The same of the types at equal places.
pub(crate) fn same_types(
    alloc: Global,
    left: &Side,
    right: &Side,
    xs: &[Type],
    ys: &[Type],
    pairs: &mut Pairs,
) -> Result<bool, AllocError>
    requires left { IsSide left.now }
    requires right { IsSide right.now }
    requires xs { AllInRange left.now.resolve.now xs.now }
    requires ys { AllInRange right.now.resolve.now ys.now }
    requires pairs { AllSame left.now.resolve.now right.now.resolve.now pairs.old.keys }
    ensures exact { IfOk result (λ y. IsTrue y ↔ (map (type_tree left.now.resolve.now) xs.now ≡ map (type_tree right.now.resolve.now) ys.now)) }
    ensures kept { AllSame left.now.resolve.now right.now.resolve.now pairs.new.keys }
{
    if xs.len() != ys.len() {
        return Ok(false);
    }
    for (i, x) in xs.iter().enumerate() {
        if !same_type(alloc, left, right, *x, ys[i], pairs)? {
            return Ok(false);
        }
    }
    Ok(true)
}

/// Whether two functions have the same signature: async, the names and types of the parameters in order, and the result.
pub(crate) fn same_signatures(
    alloc: Global,
    left: &Side,
    right: &Side,
    f: &Function,
    g: &Function,
    pairs: &mut Pairs,
) -> Result<bool, AllocError>
    requires left { IsSide left.now }
    requires right { IsSide right.now }
    requires f { AllInRange left.now.resolve.now (function_types f.now) }
    requires g { AllInRange right.now.resolve.now (function_types g.now) }
    requires pairs { AllSame left.now.resolve.now right.now.resolve.now pairs.old.keys }
    ensures exact { IfOk result (λ y. IsTrue y ↔ (signature_of left.now.resolve.now f.now ≡ signature_of right.now.resolve.now g.now)) }
    ensures kept { AllSame left.now.resolve.now right.now.resolve.now pairs.new.keys }
{
    if !same_shapes(alloc, f, g)? {
        return Ok(false);
    }
    let xs = value_types(alloc, f)?;
    let ys = value_types(alloc, g)?;
    let same = same_types(alloc, left, right, &xs, &ys, pairs)?;
    Ok(same)
}

/// Whether two external ids are the same.
pub(crate) fn same_external_ids(a: &Option<String>, b: &Option<String>) -> bool
    ensures { IsTrue result ↔ (optional_text a.now ≡ optional_text b.now) }
{
    match a {
        Some(a) => match b {
            Some(b) => a.as_str() == b.as_str(),
            None => false,
        },
        None => match b {
            Some(_) => false,
            None => true,
        },
    }
}

/// Whether two functions have the same signature and the same external id.
pub(crate) fn same_function_senses(
    alloc: Global,
    left: &Side,
    right: &Side,
    f: &Function,
    g: &Function,
    pairs: &mut Pairs,
) -> Result<bool, AllocError>
    requires left { IsSide left.now }
    requires right { IsSide right.now }
    requires f { AllInRange left.now.resolve.now (function_types f.now) }
    requires g { AllInRange right.now.resolve.now (function_types g.now) }
    requires pairs { AllSame left.now.resolve.now right.now.resolve.now pairs.old.keys }
    ensures exact { IfOk result (λ y. IsTrue y ↔ (function_meaning left.now.resolve.now f.now ≡ function_meaning right.now.resolve.now g.now)) }
    ensures kept { AllSame left.now.resolve.now right.now.resolve.now pairs.new.keys }
{
    if !same_external_ids(&f.external_id, &g.external_id) {
        return Ok(false);
    }
    let same = same_signatures(alloc, left, right, f, g, pairs)?;
    Ok(same)
}
