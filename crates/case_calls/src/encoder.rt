//! A type that an encoder of interfaces is handed, time after time.

ghost use Rattle.std.specs.{Prelude.◌≡◌, Prelude.◌<◌, Prelude.true, Prelude.is_none, Prelude.length, List.list_all};
ghost use Rattle.wit_model.specs.Valid.{IsValid};
ghost use Rattle.wit_interfaces.specs.InterfaceEncoders.{interface_encoder_view};
ghost use Rattle.case_calls.specs.Asked.{CanBeAsked};

use crate::answer::Answer;
use crate::marks::Marks;
use std::alloc::Global;
use wit_component::{
    ComponentValType, Error, InterfaceEncoder, Resolve, Type, TypeDef, TypeId, encode_valtype,
};

// Whether no type has a name. Then each of them can be encoded in a scope that declares nothing.
fn are_unnamed(types: &[TypeDef]) -> bool
    ensures { result ≡ list_all (λ def. is_none def.name) types.now }
{
    types.iter().all(|def| def.name.is_none())
}

// What the encoder answers for a type, of which it can be asked again.
fn asked<'a>(
    alloc: Global,
    encoder: &mut InterfaceEncoder<'a>,
    resolve: &'a Resolve,
    ty: &Type,
) -> Result<ComponentValType, Error>
    requires { CanBeAsked resolve.now ty.now (interface_encoder_view encoder.old) }
    ensures { CanBeAsked resolve.now ty.now (interface_encoder_view encoder.new) }
{
    encode_valtype(alloc, encoder, resolve, ty)
}

fn slot_of(answer: &Result<ComponentValType, Error>) -> Option<u32> {
    match answer {
        Ok(ComponentValType::Type_(slot)) => Some(*slot),
        _ => None,
    }
}

// The slot of the first answer, or its error, where the two others have one slot; after an error it may be another one, and then stays.
fn answer_of(
    first: Result<ComponentValType, Error>,
    again: Result<ComponentValType, Error>,
    third: Result<ComponentValType, Error>,
) -> Answer {
    let slot = slot_of(&again);
    if slot.is_none() || slot != slot_of(&third) {
        return Answer::No;
    }
    match first {
        Ok(ComponentValType::Type_(number)) if slot == Some(number) => {
            Answer::Count(u64::from(number))
        }
        Ok(_) => Answer::No,
        Err(error) => Answer::Refused(error),
    }
}

// The type of a number, three times by one encoder, the first between marks.
fn asked_thrice(
    alloc: Global,
    marks: Marks,
    resolve: &Resolve,
    id: TypeId,
) -> Result<Answer, Answer>
    requires valid { IsValid resolve.now }
    requires unnamed { list_all (λ def. is_none def.name) resolve.now.types.items ≡ true }
    requires in_range { id.0 < length resolve.now.types.items }
{
    let ty = Type::Id(id);
    let mut encoder = InterfaceEncoder::new(alloc, resolve);
    marks.begin(alloc)?;
    let first = asked(alloc, &mut encoder, resolve, &ty);
    marks.end(alloc)?;
    let again = asked(alloc, &mut encoder, resolve, &ty);
    let third = asked(alloc, &mut encoder, resolve, &ty);
    Ok(answer_of(first, again, third))
}

/// The slot of a type, where no type has a name.
pub fn value_type(
    alloc: Global,
    marks: Marks,
    resolve: &Resolve,
    id: TypeId,
) -> Result<Answer, Answer>
    requires { IsValid resolve.now }
{
    if (id.0 as usize) >= resolve.types.len() {
        return Err(Answer::Unmet("range"));
    }
    if !are_unnamed(&resolve.types) {
        return Err(Answer::Unmet("unnamed"));
    }
    asked_thrice(alloc, marks, resolve, id)
}
