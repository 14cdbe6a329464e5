//! What is shown of interfaces, by numbers of the tables.

/// What the index of a type that is shown stands for: a part, as a type of a value, or as the name of a resource.
#[derive(Clone, Copy)]
pub enum TypeSlot {
    Value(usize),
    Resource(usize),
}

/// A type that is shown.
#[derive(Clone, Copy)]
pub struct ViewType<'a> {
    pub name: &'a str,
    /// The part that it is another name for, if it is no resource.
    pub declared: Option<usize>,
    pub external_id: Option<&'a str>,
    pub slot: TypeSlot,
}

/// A function that is shown.
#[derive(Clone, Copy)]
pub struct ViewFunction<'a> {
    pub name: &'a str,
    /// The number of its type.
    pub signature: usize,
    pub external_id: Option<&'a str>,
}

/// What an instance shows, in order.
#[derive(Clone, Copy)]
pub struct View<'a> {
    pub types: &'a [ViewType<'a>],
    pub functions: &'a [ViewFunction<'a>],
}
