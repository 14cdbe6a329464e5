//! What is shown of component types, by numbers of the tables.

ghost use Rattle.std.specs.Prelude.{◌≡◌, option_to_list};
ghost use Rattle.plan_meaning.specs.NumberedWorlds.{is_resource_seen, path_seen, place_of_key};
ghost use Rattle.read_rules.specs.Scopes.{numbered_key, numbered_shown};

use crate::resources::is_resource;
use crate::views::View;
use distinct_names::Named;

/// The key of an instance: the interface of a place, or a label with the place of its inline interface, or with that of the interface which it
/// implements.
#[derive(Clone, Copy)]
pub enum InstanceKey<'a> {
    Path(u32),
    Label(&'a str, u32),
    Implementing(&'a str, u32),
}

/// What an import or an export is.
#[derive(Clone, Copy)]
pub enum Shown<'a> {
    Instance(InstanceKey<'a>, View<'a>),
    /// The number of the type of a function.
    Function(usize),
    /// A type of the world: the part that its name is, and the part that it is another name for, if it is no resource.
    Declares(usize, Option<usize>),
}

/// An import or an export. Texts are parts of the input.
#[derive(Clone, Copy)]
pub struct Seen<'a> {
    pub key: &'a str,
    pub shown: Shown<'a>,
    pub external_id: Option<&'a str>,
}

impl<'a> Named for Seen<'a> {
    ghost name_of = { λ s. s.key.now };

    fn name(&self) -> &str {
        self.key
    }
}

/// An instance, with the number of the place of its names.
#[derive(Clone, Copy)]
pub struct Instance<'a> {
    pub place: u32,
    pub view: View<'a>,
}

/// What a component type shows, and the number of the place of its own names.
#[derive(Clone, Copy)]
pub struct Scope<'a> {
    pub home: u32,
    pub imports: &'a [Seen<'a>],
    pub exports: &'a [Seen<'a>],
    pub instances: &'a [Instance<'a>],
}

/// The number of the place of an instance's names.
pub(crate) fn place_of(key: InstanceKey<'_>) -> u32
    ensures { result ≡ place_of_key (numbered_key key.entry) }
{
    match key {
        InstanceKey::Path(place) => place,
        InstanceKey::Label(_, place) => place,
        InstanceKey::Implementing(_, place) => place,
    }
}

/// The place of the interface that an instance is or implements.
pub(crate) fn place_seen(shown: Shown<'_>) -> Option<u32>
    ensures { option_to_list result ≡ path_seen (numbered_shown shown.entry) }
{
    match shown {
        Shown::Instance(key, _) => match key {
            InstanceKey::Path(place) => Some(place),
            InstanceKey::Label(_, _) => None,
            InstanceKey::Implementing(_, place) => Some(place),
        },
        Shown::Function(_) => None,
        Shown::Declares(_, _) => None,
    }
}

/// Whether a resource is shown.
pub(crate) fn shows_resource(shown: Shown<'_>) -> bool
    ensures { result ≡ is_resource_seen (numbered_shown shown.entry) }
{
    match shown {
        Shown::Declares(_, declared) => is_resource(declared),
        Shown::Instance(_, _) => false,
        Shown::Function(_) => false,
    }
}
