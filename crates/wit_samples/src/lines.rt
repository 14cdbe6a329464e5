//! Sample packages, each as the words of a `Resolve`: docs/CASES.md says which.

/// `package a:b; world foo { import host: func(); export guest: func(); }`
pub const HOST_AND_GUEST: &str =
    r#"1 "a" "b" - - 0 1 "foo" 0 0 1 "foo" - - 0 1 n "host" f "host" f 0 - - - - 1 n "guest" f "guest" f 0 - - - - 0"#;

/// `package a:b; interface i {} world w {}`
pub const EMPTY: &str = r#"1 "a" "b" - - 1 "i" 0 1 "w" 0 1 "i" - - 0 0 0 1 "w" - - 0 0 0 0"#;

/// Types of most kinds: interface `i` has `type t = u32`, which type 12 of interface `j` is an alias of. `j` has all other types, and
/// `h: func(b: bool, x: list<u8>) -> own<r>`. Type 1 is a resource, and type 3 the list.
pub const EACH_KIND: &str =
    r#"1 "a" "b" - - 2 "i" 0 "j" 1 1 "w" 0 2 "i" - - 0 1 "t" 0 0 "j" - - 0 6 "r" 1 "p" 4 "g" 6 "e" 7 "v" 8 "u" 12 1 "h" "h" f 2 "b" bool "x" 3 2 - - - 1 "w" - - 0 0 0 15 "t" i 0 - - - alias u32 "r" i 1 - - - resource - - - - - own 1 - - - - - list u8 "p" i 1 - - - record 2 "a" 3 - "b" 3 - - - - - - tuple 2 2 3 "g" i 1 - - - flags 1 "a" - "e" i 1 - - - enum 1 "a" - "v" i 1 - - - variant 1 "a" 3 - - - - - - option 3 - - - - - result 3 - - - - - - borrow 1 "u" i 1 - - - alias 0 - - - - - future - - - - - - stream -"#;
