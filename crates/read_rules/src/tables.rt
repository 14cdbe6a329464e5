//! What was followed, by numbers, as the rules of reading look at it: tables of types, of types of functions and of places.

ghost use Rattle.std.specs.Prelude.{◌≡◌, map, option_map, is_some};
ghost use Rattle.plan_meaning.specs.NumberedRules.{name_at as name_at_lem, name_in as name_in_lem, shape_at as shape_at_lem};
ghost use Rattle.plan_meaning.specs.{NumberedViews.function_at as function_at_lem, NumberedViews.path_at, Shapes.first_label as first_label_lem};
ghost use Rattle.read_rules.specs.Tables.{kept_fact, label_of, name_of, numbered_function_type, numbered_shape, numbered_tables};

/// What a type is, over the numbers of its parts. Texts are parts of the input.
#[derive(Clone, Copy)]
pub struct TypeShape<'a> {
    /// 0 for a name, and a number of its own for each form.
    pub sort: u8,
    /// The place of a name, a length, or which parts are there.
    pub number: u32,
    /// The labels, and whether each has a part.
    pub labels: &'a [(&'a str, bool)],
    /// A primitive by its number, or 14 more than the number of a type in the table.
    pub parts: &'a [usize],
}

/// Where the names in a type stand, by the numbers of the places.
#[derive(Clone, Copy)]
pub enum Names {
    /// There is no name.
    Nowhere,
    /// All stand in this place.
    In(u32),
    /// They stand in two places at least.
    InSeveral,
}

/// What is known of a type beside its shape.
#[derive(Clone, Copy)]
pub struct Fact {
    /// The unnamed levels, but 102 where there are more.
    pub levels: u32,
    pub names: Names,
    /// No form in it, its own included, is a record, a variant, flags or an enum.
    pub is_plain: bool,
    /// No form of its parts is.
    pub has_plain_parts: bool,
    /// The labels of its form are labels, and none stands twice.
    pub has_good_labels: bool,
}

/// What the type of a function is, over the parts of its parameters and its result.
#[derive(Clone, Copy)]
pub struct FunctionType<'a> {
    pub is_async: bool,
    /// The parameters: the name and the part of each.
    pub params: &'a [(&'a str, usize)],
    pub result: Option<usize>,
}

/// The types, each behind its parts and with what is known of it, the types of functions, and for each place the path of its interface, if it
/// has one.
#[derive(Clone, Copy)]
pub struct Tables<'a> {
    pub shapes: &'a [TypeShape<'a>],
    pub facts: &'a [Fact],
    pub functions: &'a [FunctionType<'a>],
    pub paths: &'a [Option<&'a str>],
}

/// What is known of a part: a primitive by its number, or 14 more than the number of a type.
pub(crate) fn fact_at(tables: &Tables<'_>, part: usize) -> Fact
    ensures { result ≡ kept_fact tables.now part }
{
    let primitive = Fact {
        levels: 0,
        names: Names::Nowhere,
        is_plain: true,
        has_plain_parts: true,
        has_good_labels: true,
    };
    if part < 14 {
        primitive
    } else {
        tables.facts.get(part - 14).copied().unwrap_or(primitive)
    }
}

/// The shape of a part, if it is no primitive. Takes constant time.
pub fn shape_at<'a>(tables: &Tables<'a>, part: usize) -> Option<TypeShape<'a>>
    ensures { option_map numbered_shape result ≡ shape_at_lem (numbered_tables tables.now) part }
{
    if part < 14 {
        return None;
    }
    tables.shapes.get(part - 14).copied()
}

fn first_label<'a>(labels: &[(&'a str, bool)]) -> &'a str
    ensures { result.now ≡ first_label_lem (map label_of labels.now) }
{
    match labels.first() {
        Some(label) => label.0,
        None => "",
    }
}

/// The place and the name of a shape that is a name. Takes constant time.
pub fn name_in<'a>(shape: TypeShape<'a>) -> Option<(u32, &'a str)>
    ensures { option_map name_of result ≡ name_in_lem (numbered_shape shape.entry) }
{
    if shape.sort == 0 {
        Some((shape.number, first_label(shape.labels)))
    } else {
        None
    }
}

/// The place and the name of a part that is a name.
pub(crate) fn name_at<'a>(tables: &Tables<'a>, part: usize) -> Option<(u32, &'a str)>
    ensures { option_map name_of result ≡ name_at_lem (numbered_tables tables.now) part }
{
    match shape_at(tables, part) {
        Some(shape) => name_in(shape),
        None => None,
    }
}

/// The type of a function, by its number: one without parameters, where there is none of this number. Takes constant time.
pub fn function_at<'a>(tables: &Tables<'a>, number: usize) -> FunctionType<'a>
    ensures { numbered_function_type result ≡ function_at_lem (numbered_tables tables.now) number }
{
    match tables.functions.get(number) {
        Some(function) => *function,
        None => FunctionType {
            is_async: false,
            params: &[],
            result: None,
        },
    }
}

/// Whether the place is of an interface with a path.
pub(crate) fn has_path(tables: &Tables<'_>, place: u32) -> bool
    ensures { result ≡ is_some (path_at (numbered_tables tables.now) place) }
{
    match tables.paths.get(place as usize) {
        Some(path) => path.is_some(),
        None => false,
    }
}
