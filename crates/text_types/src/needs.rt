//! Which types of a scope a declared type needs.
#![tactic(auto, using(crate::proofs::NeedLaws::below))]

ghost use Rattle.std.specs.Prelude.{OnOk};
ghost use Rattle.text_types.specs.{Needed.StayBelow, Scopes.name_count};

use crate::scope::Scope;
use text_names::{Fault, Need};
use text_trees::{Declared, Span, TypeTree};

fn need(scope: &Scope<'_>, name: Span, needs: &mut Vec<Need>) -> Result<(), Fault>
    ensures { OnOk result (StayBelow (name_count scope.now) needs.old.items needs.new.items) }
{
    let place = scope.place_of(name)?;
    match u32::try_from(place) {
        Ok(number) => {
            needs.push(Need { number, at: name })?;
            Ok(())
        }
        Err(_) => Err(Fault::Size),
    }
}

#[cycle(needs)]
fn needs_of_types(scope: &Scope<'_>, types: &[TypeTree], needs: &mut Vec<Need>) -> Result<(), Fault>
    ensures { OnOk result (StayBelow (name_count scope.now) needs.old.items needs.new.items) }
{
    for ty in types {
        needs_of(scope, ty, needs)?;
    }
    Ok(())
}

/// The names in a type.
#[cycle(needs)]
fn needs_of(scope: &Scope<'_>, ty: &TypeTree, needs: &mut Vec<Need>) -> Result<(), Fault>
    ensures { OnOk result (StayBelow (name_count scope.now) needs.old.items needs.new.items) }
{
    match ty {
        TypeTree::PrimitiveType(_) => Ok(()),
        TypeTree::Result => Ok(()),
        TypeTree::Future => Ok(()),
        TypeTree::Stream => Ok(()),
        TypeTree::Name(name) => need(scope, *name, needs),
        TypeTree::Own(name) => need(scope, *name, needs),
        TypeTree::Borrow(name) => need(scope, *name, needs),
        TypeTree::TupleOf(types) => needs_of_types(scope, types, needs),
        TypeTree::OptionOf(ty) => needs_of(scope, &**ty, needs),
        TypeTree::ListOf(ty) => needs_of(scope, &**ty, needs),
        TypeTree::FixedListOf(ty, _) => needs_of(scope, &**ty, needs),
        TypeTree::ResultOk(ty) => needs_of(scope, &**ty, needs),
        TypeTree::ResultErr(ty) => needs_of(scope, &**ty, needs),
        TypeTree::FutureOf(ty) => needs_of(scope, &**ty, needs),
        TypeTree::StreamOf(ty) => needs_of(scope, &**ty, needs),
        TypeTree::MapOf(key, value) => {
            needs_of(scope, &**key, needs)?;
            needs_of(scope, &**value, needs)
        }
        TypeTree::ResultOf(ok, err) => {
            needs_of(scope, &**ok, needs)?;
            needs_of(scope, &**err, needs)
        }
    }
}

/// The names in what a type is declared as. The functions of a resource don't count: they come when all types are made.
pub(crate) fn needs_of_declared(
    scope: &Scope<'_>,
    declared: &Declared,
    needs: &mut Vec<Need>,
) -> Result<(), Fault>
    ensures { OnOk result (StayBelow (name_count scope.now) needs.old.items needs.new.items) }
{
    match declared {
        Declared::RecordOf(_, fields) => {
            for field in fields {
                needs_of(scope, &field.ty, needs)?;
            }
            Ok(())
        }
        Declared::VariantOf(_, cases) => {
            for case in cases {
                if let Some(ty) = &case.payload {
                    needs_of(scope, ty, needs)?;
                }
            }
            Ok(())
        }
        Declared::AliasOf(_, ty) => needs_of(scope, ty, needs),
        Declared::FlagsOf(_, _) => Ok(()),
        Declared::EnumOf(_, _) => Ok(()),
        Declared::ResourceOf(_, _) => Ok(()),
    }
}
