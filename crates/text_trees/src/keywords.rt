//! Keywords by their numbers.

ghost use Rattle.std.specs.Prelude.{◌≡◌};
ghost use Rattle.print_grammar.specs.Token.{Token as GrammarToken};
ghost use Rattle.text_trees.specs.Reading.{is_key, keyword_number as keyword_number_lem, primitive_number as primitive_number_lem};
ghost use Rattle.text_trees.specs.Seen.{keyword_there, primitive_there};

use text_tokens::{Keyword, Primitive};

fn primitive_number(primitive: Primitive) -> u8
    ensures { result ≡ primitive_number_lem (primitive_there primitive) }
{
    match primitive {
        Primitive::Bool => 0,
        Primitive::U8 => 1,
        Primitive::U16 => 2,
        Primitive::U32 => 3,
        Primitive::U64 => 4,
        Primitive::S8 => 5,
        Primitive::S16 => 6,
        Primitive::S32 => 7,
        Primitive::S64 => 8,
        Primitive::F32 => 9,
        Primitive::F64 => 10,
        Primitive::Char => 11,
        Primitive::String => 12,
        Primitive::ErrorContext => 13,
    }
}

fn keyword_number(keyword: Keyword) -> u8
    ensures { result ≡ keyword_number_lem (keyword_there keyword) }
{
    match keyword {
        Keyword::PrimitiveWord(primitive) => primitive_number(primitive),
        Keyword::Use => 14,
        Keyword::Type_ => 15,
        Keyword::Func => 16,
        Keyword::Float32 => 17,
        Keyword::Float64 => 18,
        Keyword::Resource => 19,
        Keyword::Record => 20,
        Keyword::Flags => 21,
        Keyword::Variant => 22,
        Keyword::Enum => 23,
        Keyword::Option_ => 24,
        Keyword::Result => 25,
        Keyword::Future => 26,
        Keyword::Stream => 27,
        Keyword::List_ => 28,
        Keyword::Own => 29,
        Keyword::Borrow => 30,
        Keyword::Underscore => 31,
        Keyword::As => 32,
        Keyword::From => 33,
        Keyword::Static => 34,
        Keyword::Interface => 35,
        Keyword::Tuple => 36,
        Keyword::World => 37,
        Keyword::Import => 38,
        Keyword::Export => 39,
        Keyword::Package => 40,
        Keyword::With => 41,
        Keyword::Include => 42,
        Keyword::Constructor => 43,
        Keyword::Async => 44,
        Keyword::Map => 45,
    }
}

/// Whether two keywords are the same.
pub(crate) fn same_keyword(a: Keyword, b: Keyword) -> bool
    ensures { result ≡ is_key (keyword_there a) (GrammarToken.Key (keyword_there b)) }
{
    keyword_number(b) == keyword_number(a)
}
