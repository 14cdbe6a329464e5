//! Keys of types.

/// What a type is, over the numbers of its parts. Texts are parts of the input.
#[derive(PartialEq, Eq, Hash, Drop)]
pub struct Key<'a> {
    /// 0 for a name, and a number of its own for each form.
    pub sort: u8,
    /// The place of a name, a length, or which parts are there.
    pub number: u32,
    /// The labels, and whether each has a part.
    pub labels: Vec<(&'a str, bool)>,
    /// A primitive by its number, or 14 more than the number of a type in the table.
    pub parts: Vec<usize>,
}

/// What the type of a function is, over the parts of its parameters and its result. Texts are parts of the input.
#[derive(PartialEq, Eq, Hash, Drop)]
pub struct FunctionKey<'a> {
    pub is_async: bool,
    /// The parameters: the name and the part of each.
    pub params: Vec<(&'a str, usize)>,
    pub result: Option<usize>,
}
