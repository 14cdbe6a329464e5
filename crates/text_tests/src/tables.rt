//! Texts and what they are, by hand.

/// Texts and their tokens: where each starts and ends, and what it is.
pub static CASES: [(&str, &str); 43] = [
    // ---- blanks and comments
    ("", ""),
    (" \t\r\n", ""),
    ("//", ""),
    ("/// a\n// b\r\n \n//c", ""),
    ("// \u{e9}\nx", "6-7:Word"),
    ("a//b\nc", "0-1:Word 5-6:Word"),
    ("a/b///b", "0-1:Word 1-2:Punctuation(Slash) 2-3:Word"),
    ("/ /", "0-1:Punctuation(Slash) 2-3:Punctuation(Slash)"),
    // ---- comments in `/* */`, with others within
    ("/**/", ""),
    ("/* a */b", "7-8:Word"),
    ("a/*b*/c", "0-1:Word 6-7:Word"),
    ("/* /* */ */ x", "12-13:Word"),
    ("/*/*/**/*/*/x", "12-13:Word"),
    ("/*/ */x", "6-7:Word"),
    ("/***/x", "5-6:Word"),
    ("/* // */ x", "9-10:Word"),
    ("// /*\nx", "6-7:Word"),
    ("/*\u{e9}\n*/x", "7-8:Word"),
    // ---- marks
    (
        "{}()<>:;,.=/@->_",
        "0-1:Punctuation(OpenBrace) 1-2:Punctuation(CloseBrace) 2-3:Punctuation(OpenParen) 3-4:Punctuation(CloseParen) 4-5:Punctuation(Less) 5-6:Punctuation(Greater) 6-7:Punctuation(Colon) 7-8:Punctuation(Semi) 8-9:Punctuation(Comma) 9-10:Punctuation(Dot) 10-11:Punctuation(Equals) 11-12:Punctuation(Slash) 12-13:Punctuation(At) 13-15:Punctuation(Arrow) 15-16:Key(Underscore)",
    ),
    (
        "<_>->",
        "0-1:Punctuation(Less) 1-2:Key(Underscore) 2-3:Punctuation(Greater) 3-5:Punctuation(Arrow)",
    ),
    // ---- labels: each fragment is of one case
    ("a", "0-1:Word"),
    ("a-b-c2 AB-c1-2d x1-Y-33", "0-6:Word 7-15:Word 16-23:Word"),
    (
        "aB a1B Ab",
        "0-1:Word 1-2:Word 3-5:Word 5-6:Word 7-8:Word 8-9:Word",
    ),
    (
        "a-bC a_b",
        "0-3:Word 3-4:Word 5-6:Word 6-7:Key(Underscore) 7-8:Word",
    ),
    (
        "%a-b %bool %error-context_ %type,%Ab",
        "0-4:Escaped 5-10:Escaped 11-25:Escaped 25-26:Key(Underscore) 27-32:Escaped 32-33:Punctuation(Comma) 33-35:Escaped 35-36:Word",
    ),
    // ---- keywords
    (
        "bool u8 u16 u32 u64 s8 s16 s32 s64 f32 f64 char string error-context ",
        "0-4:Key(PrimitiveWord(Bool)) 5-7:Key(PrimitiveWord(U8)) 8-11:Key(PrimitiveWord(U16)) 12-15:Key(PrimitiveWord(U32)) 16-19:Key(PrimitiveWord(U64)) 20-22:Key(PrimitiveWord(S8)) 23-26:Key(PrimitiveWord(S16)) 27-30:Key(PrimitiveWord(S32)) 31-34:Key(PrimitiveWord(S64)) 35-38:Key(PrimitiveWord(F32)) 39-42:Key(PrimitiveWord(F64)) 43-47:Key(PrimitiveWord(Char)) 48-54:Key(PrimitiveWord(String)) 55-68:Key(PrimitiveWord(ErrorContext))",
    ),
    (
        "use type func float32 float64 resource record flags variant enum option result future stream list own borrow as from static interface tuple world import export package with include constructor async map ",
        "0-3:Key(Use) 4-8:Key(Type_) 9-13:Key(Func) 14-21:Key(Float32) 22-29:Key(Float64) 30-38:Key(Resource) 39-45:Key(Record) 46-51:Key(Flags) 52-59:Key(Variant) 60-64:Key(Enum) 65-71:Key(Option_) 72-78:Key(Result) 79-85:Key(Future) 86-92:Key(Stream) 93-97:Key(List_) 98-101:Key(Own) 102-108:Key(Borrow) 109-111:Key(As) 112-116:Key(From) 117-123:Key(Static) 124-133:Key(Interface) 134-139:Key(Tuple) 140-145:Key(World) 146-152:Key(Import) 153-159:Key(Export) 160-167:Key(Package) 168-172:Key(With) 173-180:Key(Include) 181-192:Key(Constructor) 193-198:Key(Async) 199-202:Key(Map)",
    ),
    (
        "u u128 uses error error-contexts a-bool Bool MAP",
        "0-1:Word 2-6:Word 7-11:Word 12-17:Word 18-32:Word 33-39:Word 40-41:Word 41-44:Word 45-48:Word",
    ),
    // ---- numbers
    (
        "0 00 007 42 18446744073709551616",
        "0-1:Digits 2-4:Digits 5-8:Digits 9-11:Digits 12-32:Digits",
    ),
    (
        "1.2 1a 1..2",
        "0-1:Digits 1-2:Punctuation(Dot) 2-3:Digits 4-5:Digits 5-6:Word 7-8:Digits 8-9:Punctuation(Dot) 9-10:Punctuation(Dot) 10-11:Digits",
    ),
    (
        "01.2.3",
        "0-2:Digits 2-3:Punctuation(Dot) 3-4:Digits 4-5:Punctuation(Dot) 5-6:Digits",
    ),
    // ---- versions
    (
        "1.2.3 0.0.0.4",
        "0-5:Version 6-11:Version 11-12:Punctuation(Dot) 12-13:Digits",
    ),
    (
        "1.2.03 10.20.30a",
        "0-5:Version 5-6:Digits 7-15:Version 15-16:Word",
    ),
    (
        "1.02.3",
        "0-1:Digits 1-2:Punctuation(Dot) 2-4:Digits 4-5:Punctuation(Dot) 5-6:Digits",
    ),
    (
        "1.2.3-rc.1 1.2.3-- 1.2.3-x-y.0.z",
        "0-10:Version 11-18:Version 19-32:Version",
    ),
    (
        "1.2.3-01 1.2.3-01a 1.2.3-a..b",
        "0-7:Version 7-8:Digits 9-18:Version 19-26:Version 26-27:Punctuation(Dot) 27-28:Punctuation(Dot) 28-29:Word",
    ),
    ("1.2.3-a.00", "0-9:Version 9-10:Digits"),
    (
        "1.2.3+01.a-b 1.2.3-a.b+c.00 1.2.3+a.",
        "0-12:Version 13-27:Version 28-35:Version 35-36:Punctuation(Dot)",
    ),
    (
        "1.2.3->1.2.3-a>",
        "0-5:Version 5-7:Punctuation(Arrow) 7-14:Version 14-15:Punctuation(Greater)",
    ),
    // ---- strings
    (
        "\"\" \"a-B_c.d/e:f 0\"\"\"",
        "0-2:Quoted 3-18:Quoted 18-20:Quoted",
    ),
    (
        "\"\\\\\\\"\\n\\r\\t\" \"\\u{e9}\\u{0}x\\u{10ffff}\" \"\\u{0000041}\\u{d7ff}\\u{e000}\"",
        "0-12:Quoted 13-37:Quoted 38-67:Quoted",
    ),
    ("\"// a\"b", "0-6:Quoted 6-7:Word"),
    // ---- an interface
    (
        "package wasi:clocks@0.2.0;\n\n/// The time.\ninterface %type {\n  now: func(at: option<u64>) -> list<u8,4>;\n}\n",
        "0-7:Key(Package) 8-12:Word 12-13:Punctuation(Colon) 13-19:Word 19-20:Punctuation(At) 20-25:Version 25-26:Punctuation(Semi) 42-51:Key(Interface) 52-57:Escaped 58-59:Punctuation(OpenBrace) 62-65:Word 65-66:Punctuation(Colon) 67-71:Key(Func) 71-72:Punctuation(OpenParen) 72-74:Word 74-75:Punctuation(Colon) 76-82:Key(Option_) 82-83:Punctuation(Less) 83-86:Key(PrimitiveWord(U64)) 86-87:Punctuation(Greater) 87-88:Punctuation(CloseParen) 89-91:Punctuation(Arrow) 92-96:Key(List_) 96-97:Punctuation(Less) 97-99:Key(PrimitiveWord(U8)) 99-100:Punctuation(Comma) 100-101:Digits 101-102:Punctuation(Greater) 102-103:Punctuation(Semi) 104-105:Punctuation(CloseBrace)",
    ),
];

/// Gaps between tokens, and the documentation in each.
pub static DOCUMENTED: [(&str, Option<&str>); 26] = [
    ("", None),
    (" \n\t", None),
    // ---- comments in `//`
    ("// a\n", None),
    ("/// a\n", Some("a")),
    ("///a", Some("a")),
    ("///  a \n", Some(" a ")),
    ("//// a\n", None),
    ("///\n", Some("\n")),
    ("/// a\n///\n", Some("a\n\n")),
    ("///\n/// a\n", Some("\na")),
    ("/// a\r\n  /// b\r\r\n", Some("a\nb")),
    ("/// \u{e9}\n", Some("\u{e9}")),
    ("/// a\n// b\n/* c */\n/// d\n", Some("a\nd")),
    // ---- comments in `/* */`
    ("/* a */", None),
    ("/** a */", Some("a")),
    ("/*** a */", None),
    ("/**/", None),
    ("/** */", None),
    ("/** * */", Some("*")),
    ("/**\n  a\r\n  b\n*/", Some("a\n  b")),
    ("/**a*/ /**b*/", Some("a\nb")),
    ("/** a /* b */ c */", Some("a /* b */ c")),
    ("/*\n/// a\n*/ /// b", Some("b")),
    ("/// a /* b\n/** c\n\n d */// e\n", Some("a /* b\nc\n\n d")),
    ("/** \u{e9} */\u{e9}", Some("\u{e9}")),
    ("/** a", None),
];

/// Texts, and the first byte of each at which no token begins.
pub static REFUSED: [(&str, usize); 50] = [
    ("#", 0),
    ("a #", 2),
    ("\u{e9}", 0),
    ("a \u{e9}", 2),
    ("\u{a0}", 0),
    ("\u{feff}a", 0),
    ("\u{b}", 0),
    ("/*", 0),
    ("/*/", 0),
    ("a /* b", 2),
    ("/* /* */", 0),
    ("/* a *\u{e9}/", 0),
    ("*/", 0),
    ("/* */ /* */ */", 12),
    ("// a\n*", 5),
    ("+", 0),
    ("-", 0),
    ("a-", 1),
    ("a--b", 1),
    ("a-B-", 3),
    ("-->", 0),
    ("->-", 2),
    ("%", 0),
    ("%1", 0),
    ("% a", 0),
    ("%-a", 0),
    ("a%_", 1),
    ("1.2.3+", 5),
    ("1.2.3-", 5),
    ("1.2.3-+a", 5),
    ("1.2.3-a+", 7),
    ("1.2.3+a+b", 7),
    ("1-a", 1),
    ("\"", 0),
    ("\"a", 0),
    ("x \"a;\n\"", 2),
    ("\"\\x\"", 0),
    ("\"\\u{}\"", 0),
    ("\"\\u{d800}\"", 0),
    ("\"\\u{dfff}\"", 0),
    ("\"\\u{110000}\"", 0),
    ("\"\\u{100000000}\"", 0),
    ("\"\\u{41\"", 0),
    ("\"\\u41\"", 0),
    ("\"\\u{E9}\"", 0),
    ("\"\u{e9}\"", 0),
    ("\"a\n\"", 0),
    ("\"a\" \"", 4),
    ("a 'b'", 2),
    ("a\\", 1),
];
