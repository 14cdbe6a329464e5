//! Names that calls make of texts.

use std::test::Fail;
use wit_component::{PackageName, extern_name};
use wit_samples::read;

// The path of an interface in a package that stands by itself.
#[test]
fn a_path_in_a_package(rt: HostRuntime) -> Result<(), Fail> {
    let name: PackageName = read(rt.alloc(), r#""a" "b" -"#)?;
    let path = name.interface_id(rt.alloc(), "c")?;
    assert_eq!(rt; path.as_str(), "a:b/c");
    Ok(())
}

// An external id is an attribute, the empty one too. There is no other.
#[test]
fn names_of_exports(rt: HostRuntime) {
    static CASES: [Option<&str>; 3] = [None, Some("e x"), Some("")];
    for id in &CASES {
        let name = extern_name("t", *id);
        assert_eq!(rt; &*name.name, "t");
        assert!(rt; name.external_id.as_deref() == *id);
        assert!(rt; name.implements.is_none() && name.version_suffix.is_none());
    }
}
