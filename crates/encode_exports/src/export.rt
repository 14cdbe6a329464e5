//! Component types and their exports, in components under construction.

ghost use Rattle.std.specs.Prelude.{◌≡◌, ◌⊎◌, false, Err, IfErr, OnErr, OnOk};
ghost use Rattle.comp_bytes.specs.Refusal.{IsMemoryOrSize};
ghost use Rattle.encode_exports.specs.ExportedParts.{fits_with_export, with_exported, with_type, ExportsOneMore};
ghost use Rattle.wit_model.specs.declared.error.Error.TheVariants.{Size};

use comp_bytes::{ComponentBuilder, ComponentType};
use wit_model::Error;

/// Adds a component type to a component, and its export under a label without attributes.
///
/// Takes amortised time linear in the bytes that it appends. `Memory` comes where a growth was refused, `Size` only where the component with
/// the type, or with both, would be 2^32 bytes long or longer. After a refusal the component is as it was, or has the type without its export.
pub fn export_component_type(
    builder: &mut ComponentBuilder,
    label: &str,
    component: &ComponentType,
) -> Result<(), Error>
    ensures ok { OnOk result (builder.new ≡ with_exported builder.old (label.now, component.now)) }
    ensures more { OnOk result (ExportsOneMore builder.old (label.now, component.now) builder.new) }
    ensures err { OnErr result ((builder.new ≡ builder.old) ⊎ (builder.new ≡ with_type builder.old component.now)) }
    ensures size { result ≡ Err Size → fits_with_export builder.old (label.now, component.now) ≡ false }
    ensures refuses { IfErr result IsMemoryOrSize }
{
    let index = builder.type_component(component)?;
    builder.export(label, index)?;
    Ok(())
}
