//! Component types and instance types that stand in others, behind what is there, and the counts of what a type declares.

ghost use Rattle.std.specs.Prelude.{◌≡◌, ◌+◌, ◌^◌, ◌∷◌, ◌++◌, false, nat_lt, IfOk, OnOk, OnErr, IfErr};
ghost use Rattle.wit_model.specs.Refusals.{IsMemory};
ghost use Rattle.comp_bytes.specs.{Writing.body_bytes, Held.described_slots as slots_of, Held.fits_counts, Held.Begins, Refusal.IsMemoryOrSize};

use crate::forms::ComponentTypeRef;
use crate::number::write_u32;
use wit_model::Error;

/// Appends the byte of a component type or an instance type, how many declarations there are, and their bytes. An `Err` may
/// leave some of them.
pub(crate) fn append_body(
    out: &mut Vec<u8>,
    sort: u8,
    count: u32,
    declarations: &[u8],
) -> Result<(), Error>
    ensures ok { OnOk result (out.new.items ≡ out.old.items ++ body_bytes sort count declarations.now) }
    ensures err { OnErr result (Begins out.old.items out.new.items) }
    ensures memory { IfErr result IsMemory }
{
    out.push(sort)?;
    write_u32(out, count)?;
    out.extend_from_slice(declarations)?;
    Ok(())
}

fn append_nested(out: &mut Vec<u8>, sort: u8, count: u32, declarations: &[u8]) -> Result<(), Error>
    ensures ok { OnOk result (out.new.items ≡ out.old.items ++ 1 ∷ body_bytes sort count declarations.now) }
    ensures err { OnErr result (Begins out.old.items out.new.items) }
    ensures memory { IfErr result IsMemory }
{
    out.push(0x01)?;
    append_body(out, sort, count, declarations)
}

/// Declares a component type or an instance type. An `Err` leaves what was there.
pub(crate) fn declare_nested(
    out: &mut Vec<u8>,
    sort: u8,
    count: u32,
    declarations: &[u8],
) -> Result<(), Error>
    ensures ok { OnOk result (out.new.items ≡ out.old.items ++ 1 ∷ body_bytes sort count declarations.now) }
    ensures err { OnErr result (out.new.items ≡ out.old.items) }
    ensures memory { IfErr result IsMemory }
{
    let start = out.len();
    match append_nested(out, sort, count, declarations) {
        Ok(()) => Ok(()),
        Err(error) => {
            out.truncate(start);
            Err(error)
        }
    }
}

/// How many type indexes an import or an export takes.
pub(crate) fn described_slots(ty: ComponentTypeRef) -> u32
    ensures { result ≡ slots_of ty }
{
    match ty {
        ComponentTypeRef::TypeEq(_) | ComponentTypeRef::SubResource => 1,
        ComponentTypeRef::Func(_)
        | ComponentTypeRef::Component(_)
        | ComponentTypeRef::Instance(_) => 0,
    }
}

/// The sum, if it fits in 32 bits.
pub(crate) fn count_on(count: u32, more: u32) -> Result<u32, Error>
    ensures ok { IfOk result (λ sum. sum ≡ count + more) }
    ensures size { OnErr result (nat_lt (count + more) (2 ^ 32) ≡ false) }
    ensures refuses { IfErr result IsMemoryOrSize }
{
    match count.checked_add(more) {
        Some(sum) => Ok(sum),
        None => Err(Error::Size),
    }
}

/// The counts of declarations and of type indexes with one more declaration, which takes so many indexes.
pub(crate) fn counts_on(count: u32, types: u32, more: u32) -> Result<(u32, u32), Error>
    ensures ok { IfOk result (λ sums. (sums.0 ≡ count + 1) × (sums.1 ≡ types + more)) }
    ensures size { OnErr result (fits_counts (count + 1) (types + more) ≡ false) }
    ensures refuses { IfErr result IsMemoryOrSize }
{
    Ok((count_on(count, 1)?, count_on(types, more)?))
}
