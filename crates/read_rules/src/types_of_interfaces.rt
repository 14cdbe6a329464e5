//! The component type of an interface: one export, behind imports without functions.

ghost use Rattle.std.specs.Prelude.{◌≡◌, ◌∷◌, [], map, option_map};
ghost use Rattle.plan_meaning.specs.NumberedMembers.{exported_view as exported_view_lem, imported_view as imported_view_lem};
ghost use Rattle.read_rules.specs.{Reached.numbered_import, Scopes.numbered_seen, Sights.placed_view};

use crate::reached::ImportedView;
use crate::scopes::{Instance, InstanceKey, Seen, Shown};

/// What an import of an interface's component type shows: an instance under a path, without functions and without an external id
/// (Component Model WIT.md, "Package Format"). Takes constant time.
pub fn imported_view<'a>(import: Seen<'a>) -> Option<ImportedView<'a>>
    ensures { option_map numbered_import result ≡ imported_view_lem (numbered_seen import.entry) }
{
    match import.shown {
        Shown::Instance(key, view) => match key {
            InstanceKey::Path(place) => {
                if import.external_id.is_none() && view.functions.is_empty() {
                    Some(ImportedView { place, view })
                } else {
                    None
                }
            }
            InstanceKey::Label(_, _) => None,
            InstanceKey::Implementing(_, _) => None,
        },
        Shown::Function(_) => None,
        Shown::Declares(_, _) => None,
    }
}

/// What an export of an interface's component type shows.
fn export_of<'a>(export: Seen<'a>) -> Option<Instance<'a>>
    ensures { option_map placed_view result ≡ exported_view_lem (numbered_seen export.entry ∷ []) }
{
    match export.shown {
        Shown::Instance(key, view) => match key {
            InstanceKey::Path(place) => {
                if export.external_id.is_none() {
                    Some(Instance { place, view })
                } else {
                    None
                }
            }
            InstanceKey::Label(_, _) => None,
            InstanceKey::Implementing(_, _) => None,
        },
        Shown::Function(_) => None,
        Shown::Declares(_, _) => None,
    }
}

/// What the one export of an interface's component type shows: an instance under a path, without an external id (Component Model WIT.md,
/// "Package Format"). Takes constant time.
pub fn exported_view<'a>(exports: &[Seen<'a>]) -> Option<Instance<'a>>
    ensures { option_map placed_view result ≡ exported_view_lem (map numbered_seen exports.now) }
{
    match exports {
        [export] => export_of(*export),
        _ => None,
    }
}
