//! Senses of two places, compared more than once over one table.

ghost use Rattle.std.specs.Prelude.{◌≡◌};
ghost use Rattle.wit_component.specs.Valid.{IsValid};

use std::alloc::Global;
use std::test::Fail;
use wit_component::{Error, InterfaceId, Place, Resolve, Senses, WorldId};
use wit_samples::lines::EACH_KIND;
use wit_samples::valid;

// The same place once more.
fn again(place: &Place) -> Place
    ensures { result ≡ place.now }
{
    match place {
        Place::Interface(id) => Place::Interface(*id),
        Place::World(id) => Place::World(*id),
        Place::Import(id, index) => Place::Import(*id, *index),
    }
}

// Whether two places have the same sense, and whether they have it when that is asked once more.
fn same_twice(
    alloc: Global,
    resolve: &Resolve,
    at: &Place,
    other: &Place,
) -> Result<(bool, bool), Error>
    requires { IsValid resolve.now }
{
    if !at.is_in(resolve) {
        return Err(Error::Size);
    }
    if !other.is_in(resolve) {
        return Err(Error::Size);
    }
    let mut senses = match Senses::new(alloc, resolve, resolve) {
        Ok(senses) => senses,
        Err(error) => return Err(error),
    };
    let first = senses.same(alloc, again(at), again(other))?;
    let second = senses.same(alloc, again(at), again(other))?;
    Ok((first, second))
}

// What was compared before changes no answer. An interface and a world never have the same sense.
#[test]
fn one_after_the_other(rt: HostRuntime) -> Result<(), Fail> {
    static CASES: [(Place, Place, bool); 4] = [
        (
            Place::Interface(InterfaceId(1)),
            Place::Interface(InterfaceId(1)),
            true,
        ),
        (
            Place::Interface(InterfaceId(0)),
            Place::Interface(InterfaceId(1)),
            false,
        ),
        (
            Place::Interface(InterfaceId(0)),
            Place::World(WorldId(0)),
            false,
        ),
        (Place::World(WorldId(0)), Place::World(WorldId(0)), true),
    ];
    let resolve = valid(rt.alloc(), EACH_KIND)?;
    for (at, other, expected) in &CASES {
        let found = same_twice(rt.alloc(), &resolve, at, other)?;
        assert!(rt; found == (*expected, *expected));
    }
    Ok(())
}
