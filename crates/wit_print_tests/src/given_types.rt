//! Types that an iterator of the caller's gives, printed.

ghost use Rattle.std.specs.{Prelude.◌≡◌, Prelude.◌&&◌, Prelude.true, Prelude.is_some, List.list_all};
ghost use Rattle.wit_model.specs.{Parts.same_owner, Valid.IsValid};
ghost use Rattle.wit_print.specs.UseGroups.{is_listed_type};

use std::alloc::Global;
use std::collections::HashMap;
use std::process::Abort;
use std::test::Fail;
use wit_model::{Error, InterfaceId, Resolve, TypeDef, TypeId, TypeOwner, is_label};
use wit_print::{Output, OutputToString, WitPrinter};
use wit_samples::valid;

/// Types under their names, one after the other.
#[derive(Drop)]
struct Given<'a> {
    all: &'a [(&'a str, TypeId)],
    given: usize,
}

impl<'a> Iterator for Given<'a> {
    ghost use Rattle.std.specs.Prelude.{drop};
    ghost use Rattle.std.specs.Iterator.{YieldsFirst, item_count};

    type Item = (&'a str, TypeId);

    ghost next_gives = { YieldsFirst (λ it. drop it.given it.all.now) };

    ghost remaining = { item_count (λ it. drop it.given it.all.now) };

    fn next(&mut self) -> Option<(&'a str, TypeId)> {
        if self.given >= self.all.len() {
            return None;
        }
        let entry = self.all[self.given];
        self.given += 1;
        Some(entry)
    }
}

fn is_named_of(def: &TypeDef, interface: InterfaceId) -> bool
    ensures { result ≡ (is_some def.now.name && same_owner def.now.owner (TypeOwner.Interface interface)) }
{
    match def.owner {
        TypeOwner::Interface(owner) => def.name.is_some() && owner.0 == interface.0,
        _ => false,
    }
}

/// Whether a type is one of an interface, and stands under a label.
fn is_listed(resolve: &Resolve, interface: InterfaceId, name: &str, id: TypeId) -> bool
    ensures { result ≡ is_listed_type resolve.now (TypeOwner.Interface interface) (record { name = name.now; id = id }) }
{
    match resolve.types.get(id.0 as usize) {
        Some(def) => is_label(name) && is_named_of(def, interface),
        None => false,
    }
}

fn are_listed(resolve: &Resolve, interface: InterfaceId, types: &[(&str, TypeId)]) -> bool
    ensures { result ≡ list_all (λ listed. is_listed_type resolve.now (TypeOwner.Interface interface)
        (record { name = listed.0.now; id = listed.1 })) types.now }
{
    types
        .iter()
        .all(|listed| is_listed(resolve, interface, listed.0, listed.1))
}

// Prints types of an interface that are listed.
fn print_listed<O: Output>(
    alloc: Global,
    printer: &mut WitPrinter<O>,
    resolve: &Resolve,
    interface: InterfaceId,
    types: &[(&str, TypeId)],
) -> Result<(), Error>
    requires valid { IsValid resolve.now }
    requires listed { list_all (λ listed. is_listed_type resolve.now (TypeOwner.Interface interface) (record { name = listed.0.now; id = listed.1 }))
        types.now ≡ true }
{
    let functions = HashMap::new(alloc);
    let given = Given {
        all: types,
        given: 0,
    };
    printer.print_types(
        alloc,
        resolve,
        TypeOwner::Interface(interface),
        given,
        &functions,
    )
}

// Prints types of interface 1.
fn print_given<O: Output>(
    rt: &impl Abort,
    alloc: Global,
    printer: &mut WitPrinter<O>,
    resolve: &Resolve,
    types: &[(&str, TypeId)],
) -> Result<(), Fail>
    requires { IsValid resolve.now }
{
    assert!(rt; are_listed(resolve, InterfaceId(1), types));
    print_listed(alloc, printer, resolve, InterfaceId(1), types)?;
    Ok(())
}

// Interface `k` uses a type of `i`, and has a name for it and a resource.
const TWO_INTERFACES: &str =
    r#"1 "a" "b" - - 2 "i" 0 "k" 1 1 "w" 0 2 "i" - - 0 1 "t" 0 0 "k" - - 0 3 "t" 1 "x" 2 "r" 3 0 1 "w" - - 0 0 0 4 "t" i 0 - - - alias u8 "t" i 1 - - - alias 0 "x" i 1 - - - alias 1 "r" i 1 - - - resource"#;

// The second call goes on in the block of the first.
#[test]
fn two_calls_of_one_printer(rt: HostRuntime) -> Result<(), Fail> {
    static CALLS: [&[(&str, TypeId)]; 2] = [
        &[("x", TypeId(2)), ("t", TypeId(1))],
        &[("r", TypeId(3))],
    ];
    let resolve = valid(rt.alloc(), TWO_INTERFACES)?;
    let mut printer = WitPrinter::new(OutputToString::new(rt.alloc()));
    for types in &CALLS {
        print_given(&rt, rt.alloc(), &mut printer, &resolve, *types)?;
    }
    let text = String::from(printer.output);
    assert_eq!(rt; text.as_str(), "use i.{t};\n\ntype x = t;\n\nresource r;\n");
    Ok(())
}
