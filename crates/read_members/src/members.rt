//! Members, as the rules of reading on a package and on one world take them.

ghost use Rattle.std.specs.Prelude.{◌≡◌, map, IfOk};
ghost use Rattle.read_members.specs.ReadMembers.{lent_member as lent_member_lem, read_member};

use crate::reading::{ReadMember, ReadPart};
use read_exports::{Member, Part};
use std::alloc::{AllocError, Global};

/// The member, as the rules take it.
fn lent_member<'a>(member: &'a ReadMember<'a>) -> Member<'a>
    ensures { lent_member_lem result ≡ read_member member.entry.now }
{
    match &member.part {
        ReadPart::World(scope) => Member {
            label: member.label,
            package_number: member.package_number,
            part: Part::World(*scope),
        },
        ReadPart::Interface(exported, imports) => Member {
            label: member.label,
            package_number: member.package_number,
            part: Part::Interface(exported.place, exported.view, imports),
        },
    }
}

/// The members, as the rules take them. Takes time linear in their number, and as much memory as there are.
pub fn members_of<'a>(
    alloc: Global,
    members: &'a [ReadMember<'a>],
) -> Result<Vec<Member<'a>>, AllocError>
    ensures { IfOk result (λ all. map lent_member_lem all.items ≡ map read_member members.entry.now) }
{
    let mut all = Vec::new(alloc);
    for member in members {
        all.push(lent_member(member))?;
    }
    Ok(all)
}
