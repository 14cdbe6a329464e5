//! Parts of texts and their trees, by hand from the grammar of WIT text. A tree is written as `shown` does it: what belongs together stands in brackets.

/// Texts and their trees.
pub static FILES: [(&str, &str); 23] = [
    ("package a:b;", "a b"),
    ("package a:b@1.2.3;", "a b 1.2.3"),
    ("package %use:%b@0.1.0-rc.1+x;", "use b 0.1.0-rc.1+x"),
    (
        "package a:b; interface i {} world w {} interface %world {}",
        "a b {interface i} {world w} {interface world}",
    ),
    (
        "package a:b; @since(version = 1.0.0) interface i {} @unstable(feature = f) world w {}",
        "a b {since 1.0.0 interface i} {unstable f world w}",
    ),
    (
        "package a:b; @since(version = 1.0.0) @deprecated(version = 2.0.0) world w {}",
        "a b {since 1.0.0 until 2.0.0 world w}",
    ),
    (
        "package a:b; interface i { type t = u8; f: func(); } world w { import i; export i; }",
        "a b {interface i {type t=U8} {func f ()}} {world w {import i} {export i}}",
    ),
    ("package a:b; package c:d {}", "a b | c d"),
    (
        "package a:b; interface i {} package c:d@1.0.0 { world w {} @unstable(feature = f) interface j {} } package %e:f {}",
        "a b {interface i} | c d 1.0.0 {world w} {unstable f interface j} | e f",
    ),
    (
        "/// d\npackage a:b; // e\n/// f\ninterface i { /// g\n}",
        "#d# a b {#f# interface i}",
    ),
    // ---- gates in any order
    (
        "package a:b; @deprecated(version = 2.0.0) @since(version = 1.0.0) interface i {}",
        "a b {since 1.0.0 until 2.0.0 interface i}",
    ),
    (
        "package a:b; @deprecated(version = 2.0.0) @unstable(feature = f) world w {}",
        "a b {unstable f until 2.0.0 world w}",
    ),
    // ---- documentation
    (
        "/** p\n q */ package a:b; /* c */ /// n\npackage c:d { /// w\n@since(version = 1.0.0) /// no\nworld w {} }",
        "#p\n q# a b | #n# c d {#w# since 1.0.0 world w}",
    ),
    (
        "package a:b; interface i { /// f\n@since(version = 1.0.0) /// no\nf: func(/// no\n); }",
        "a b {interface i {#f# since 1.0.0 func f ()}}",
    ),
    // ---- texts without the name of their package
    ("", "-"),
    ("/// d\n", "-"),
    ("/// i\ninterface i {}", "- {#i# interface i}"),
    ("/// n\npackage a:b {} world w {}", "- {world w} | #n# a b"),
    (
        "package a:b@1.0.0 { interface i {} } package c:d {}",
        "- | a b 1.0.0 {interface i} | c d",
    ),
    // ---- nested packages among items
    (
        "package a:b; interface i {} package c:d {} world w {} package e:f { use i; }",
        "a b {interface i} {world w} | c d | e f {use i}",
    ),
    (
        "package a:b; package c:d {} interface i {}",
        "a b {interface i} | c d",
    ),
    // ---- names at the top
    (
        "use i; use a:b/i; use %use as %as; use a:b/i@1.2.3 as j;",
        "- {use i} {use [a b i]} {use use=as} {use [a b i 1.2.3]=j}",
    ),
    (
        "package a:b; use i as j; interface k { use j.{a}; }",
        "a b {use i=j} {interface k {use j a}}",
    ),
];

/// Types.
pub static TYPES: [(&str, &str); 38] = [
    ("bool", "Bool"),
    ("u8", "U8"),
    ("u16", "U16"),
    ("u32", "U32"),
    ("u64", "U64"),
    ("s8", "S8"),
    ("s16", "S16"),
    ("s32", "S32"),
    ("s64", "S64"),
    ("f32", "F32"),
    ("f64", "F64"),
    ("char", "Char"),
    ("string", "String"),
    ("error-context", "ErrorContext"),
    ("x", "x"),
    ("%u8", "u8"),
    ("%x-y", "x-y"),
    ("own<r>", "own[r]"),
    ("own<%own>", "own[own]"),
    ("borrow<r>", "borrow[r]"),
    ("tuple<u8>", "tuple[U8]"),
    ("tuple<u8,>", "tuple[U8]"),
    ("tuple<u8, x>", "tuple[U8 x]"),
    ("tuple<u8, x, s8, >", "tuple[U8 x S8]"),
    ("option<u8>", "option[U8]"),
    ("list<u8>", "list[U8]"),
    ("list<x, 4>", "list[x 4]"),
    ("list<u8, 007>", "list[U8 007]"),
    ("map<string, x>", "map[String x]"),
    ("result", "result"),
    ("result<u8>", "result[U8]"),
    ("result<_, u8>", "result[_ U8]"),
    ("result<u8, x>", "result[U8 x]"),
    ("future", "future"),
    ("future<u8>", "future[U8]"),
    ("stream", "stream"),
    ("stream<u8>", "stream[U8]"),
    (
        "option<result<_, list<tuple<future, stream<x>>, 2>>>",
        "option[result[_ list[tuple[future stream[x]] 2]]]",
    ),
];

/// What an interface has.
pub static MEMBERS: [(&str, &str); 38] = [
    ("f: func();", "{func f ()}"),
    ("f: func(a: u8);", "{func f (a=U8)}"),
    ("f: func(a: u8,);", "{func f (a=U8)}"),
    (
        "f: func(a: u8, %b: x, ) -> result;",
        "{func f (a=U8 b=x)->result}",
    ),
    ("%f: async func() -> u8;", "{func f async()->U8}"),
    ("record r { a: u8 }", "{record r a=U8}"),
    ("record r { a: u8, %b: x, }", "{record r a=U8 b=x}"),
    (
        "record r { /// one\na: u8, /** two */ %b: /// no\nx, /// no\n}",
        "{record r #one# a=U8 #two# b=x}",
    ),
    ("variant v { a }", "{variant v a}"),
    ("variant v { a, b(u8), %c(x), }", "{variant v a b->U8 c->x}"),
    (
        "variant v { a, /// b\n/// c\nb(u8), }",
        "{variant v a #b\nc# b->U8}",
    ),
    ("flags f { a }", "{flags f a}"),
    ("flags f { /// a\na, /* b */ b }", "{flags f #a# a b}"),
    ("flags f { a, %b, }", "{flags f a b}"),
    ("enum e { a }", "{enum e a}"),
    ("enum e { a, %enum, }", "{enum e a enum}"),
    ("enum e { a, /// e\n%enum, }", "{enum e a #e# enum}"),
    ("type t = u8;", "{type t=U8}"),
    ("resource r;", "{resource r}"),
    ("resource r {}", "{resource r}"),
    ("resource r { constructor(); }", "{resource r {new()}}"),
    (
        "resource r { constructor(a: u8) -> result<r>; m: func(); s: static func() -> r; t: static async func(); n: async func(); }",
        "{resource r {new(a=U8)->result[r]} {method m ()} {static s ()->r} {static t async()} {method n async()}}",
    ),
    (
        "resource r { @since(version = 1.0.0) constructor(); @external-id(\"m\") m: func(); @unstable(feature = y) s: static func(); }",
        "{resource r {since 1.0.0 new()} {id \"m\" method m ()} {unstable y static s ()}}",
    ),
    ("use i.{a};", "{use i a}"),
    ("use i.{a, %b as %use, };", "{use i a b=use}"),
    ("use a:b/i.{x};", "{use [a b i] x}"),
    ("use a:b/i@1.2.3-rc.{x};", "{use [a b i 1.2.3-rc] x}"),
    (
        "@since(version = 1.0.0) f: func();",
        "{since 1.0.0 func f ()}",
    ),
    (
        "@since(version = 1.0.0) @deprecated(version = 2.0.0) type t = u8;",
        "{since 1.0.0 until 2.0.0 type t=U8}",
    ),
    (
        "@unstable(feature = %x) @deprecated(version = 2.0.0) use i.{a};",
        "{unstable x until 2.0.0 use i a}",
    ),
    (
        "@deprecated(version = 2.0.0) @since(version = 1.0.0) type t = u8;",
        "{since 1.0.0 until 2.0.0 type t=U8}",
    ),
    (
        "@external-id(\"e\") @since(version = 1.0.0) f: func();",
        "{since 1.0.0 id \"e\" func f ()}",
    ),
    (
        "@deprecated(version = 2.0.0) @external-id(\"e\") @unstable(feature = x) resource r;",
        "{unstable x until 2.0.0 id \"e\" resource r}",
    ),
    (
        "/// a\n/** b */ @external-id(\"e\") f: func(); /// u\nuse i.{/// no\na};",
        "{#a\nb# id \"e\" func f ()} {#u# use i a}",
    ),
    (
        "resource r { /// new\nconstructor(); /// m\nm: func(); s: static func(); }",
        "{resource r {#new# new()} {#m# method m ()} {static s ()}}",
    ),
    ("@external-id(\"e\") f: func();", "{id \"e\" func f ()}"),
    (
        "@since(version = 1.0.0) @external-id(\"\") resource r;",
        "{since 1.0.0 id \"\" resource r}",
    ),
    (
        "f: func(); type t = u8; use i.{a};",
        "{func f ()} {type t=U8} {use i a}",
    ),
];

/// What a world has.
pub static WORLD_MEMBERS: [(&str, &str); 22] = [
    ("import i;", "{import i}"),
    ("export %i;", "{export i}"),
    ("import a:b/i;", "{import [a b i]}"),
    ("export a:b/i@1.2.3;", "{export [a b i 1.2.3]}"),
    ("import f: func(a: u8) -> u8;", "{import func f (a=U8)->U8}"),
    ("export f: async func();", "{export func f async()}"),
    ("import n: i;", "{import n=i}"),
    ("export n: a:b/i@1.2.3;", "{export n=[a b i 1.2.3]}"),
    ("import n: interface {}", "{import interface n}"),
    (
        "export n: interface { f: func(); use i.{a}; }",
        "{export interface n {func f ()} {use i a}}",
    ),
    ("use i.{a};", "{use i a}"),
    ("type t = u8;", "{type t=U8}"),
    ("resource r { constructor(); }", "{resource r {new()}}"),
    (
        "@since(version = 1.0.0) import i;",
        "{since 1.0.0 import i}",
    ),
    (
        "@external-id(\"e\") export f: func();",
        "{id \"e\" export func f ()}",
    ),
    ("@unstable(feature = x) use i.{a};", "{unstable x use i a}"),
    (
        "/// i\nimport i; /// e\nexport n: interface { /// f\nf: func(); }",
        "{#i# import i} {#e# export interface n {#f# func f ()}}",
    ),
    // ---- inclusions
    ("include v;", "{include v}"),
    ("include a:b/v@1.2.3;", "{include [a b v 1.2.3]}"),
    ("include v with { a as b }", "{include v a=b}"),
    (
        "include a:b/v with { a as b, %use as c, };",
        "{include [a b v] a=b use=c}",
    ),
    (
        "/// v\n@since(version = 1.0.0) include v; include u with { a as b } import i;",
        "{#v# since 1.0.0 include v} {include u a=b} {import i}",
    ),
];

/// A text before and behind a type of options of so many levels.
pub static TOWERS: [(&str, &str, u32); 4] = [
    ("package a:b; interface i { type t = ", "; }", 100),
    ("package a:b; interface i { type t = ", "; }", 101),
    ("package a:b; interface i { f: func(p: ", "); }", 100),
    ("package a:b; interface i { record r { f: ", "} }", 100),
];
