//! Each text has the tree that the table says, or is refused at the place and for the want that the table says.

use crate::refused_trees::{REFUSED_PREFIXES, REFUSED_TOWERS, REFUSED_TREES};
use crate::shown::shown;
use crate::trees::{FILES, MEMBERS, TOWERS, TYPES, WORLD_MEMBERS};
use std::alloc::{AllocError, Global};
use std::test::Fail;
use text_trees::{TreeError, read_tree};

// The tree as the table has it, or the refusal.
fn answer(alloc: Global, text: &str) -> Result<String, AllocError> {
    match read_tree(alloc, text) {
        Ok(file) => shown(alloc, text, &file),
        Err(error) => format!(in alloc; "{error}"),
    }
}

// Whether a part between two others has a tree that is written with that between two others.
fn answers(
    alloc: Global,
    part: (&str, &str),
    text: (&str, &str),
    tree: (&str, &str),
) -> Result<bool, AllocError> {
    let whole = format!(in alloc; "{}{}{}", text.0, part.0, text.1)?;
    let expected = format!(in alloc; "{}{}{}", tree.0, part.1, tree.1)?;
    let found = answer(alloc, whole.as_str())?;
    Ok(found.as_str() == expected.as_str())
}

#[test]
fn each_file(rt: HostRuntime) -> Result<(), Fail> {
    for part in &FILES {
        assert!(rt;
            answers(rt.alloc(), *part, ("", ""), ("", ""))?,
            "{}",
            part.0
        );
    }
    Ok(())
}

#[test]
fn each_type(rt: HostRuntime) -> Result<(), Fail> {
    let text = ("package a:b; interface i { type t = ", "; }");
    for part in &TYPES {
        let is_read = answers(rt.alloc(), *part, text, ("a b {interface i {type t=", "}}"))?;
        assert!(rt; is_read, "{}", part.0);
    }
    Ok(())
}

#[test]
fn each_member(rt: HostRuntime) -> Result<(), Fail> {
    let text = ("package a:b; interface i { ", " }");
    for part in &MEMBERS {
        let is_read = answers(rt.alloc(), *part, text, ("a b {interface i ", "}"))?;
        assert!(rt; is_read, "{}", part.0);
    }
    Ok(())
}

#[test]
fn each_world_member(rt: HostRuntime) -> Result<(), Fail> {
    let text = ("package a:b; world w { ", " }");
    for part in &WORLD_MEMBERS {
        let is_read = answers(rt.alloc(), *part, text, ("a b {world w ", "}"))?;
        assert!(rt; is_read, "{}", part.0);
    }
    Ok(())
}

// Whether a text in two parts is refused where the second begins, for this want.
fn is_refused(alloc: Global, before: &str, behind: &str, wanted: &str) -> Result<bool, AllocError> {
    let text = format!(in alloc; "{before}{behind}")?;
    let expected = format!(in alloc; "expected {wanted} at byte {}", before.len())?;
    let found = answer(alloc, text.as_str())?;
    Ok(found.as_str() == expected.as_str())
}

#[test]
fn each_refusal(rt: HostRuntime) -> Result<(), Fail> {
    for (before, behind, wanted) in &REFUSED_TREES {
        assert!(rt;
            is_refused(rt.alloc(), *before, *behind, *wanted)?,
            "{}{}",
            *before,
            *behind
        );
    }
    Ok(())
}

#[test]
fn each_refused_prefix(rt: HostRuntime) -> Result<(), Fail> {
    for (before, behind, wanted) in &REFUSED_PREFIXES {
        assert!(rt;
            is_refused(rt.alloc(), *before, *behind, *wanted)?,
            "{}{}",
            *before,
            *behind
        );
    }
    Ok(())
}

// A text with a type of so many levels between two parts.
fn tower(alloc: Global, before: &str, behind: &str, levels: u32) -> Result<String, AllocError> {
    let mut text = String::new(alloc);
    text.push_str(before)?;
    for _ in 0..levels {
        text.push_str("option<")?;
    }
    text.push_str("u8")?;
    for _ in 0..levels {
        text.push_str(">")?;
    }
    text.push_str(behind)?;
    Ok(text)
}

// A type has at most 100 levels where it is used, and an alias at most 101. What is above is refused where the first level too many begins.
#[test]
fn a_hundred_levels(rt: HostRuntime) -> Result<(), Fail> {
    let alloc = rt.alloc();
    for (before, behind, levels) in &TOWERS {
        let text = tower(alloc, *before, *behind, *levels)?;
        assert!(rt; read_tree(alloc, text.as_str()).is_ok(), "{}", *levels);
    }
    for (before, behind, levels, place) in &REFUSED_TOWERS {
        let text = tower(alloc, *before, *behind, *levels)?;
        let expected = format!(in alloc; "expected a type of fewer levels at byte {}", *place)?;
        let found = answer(alloc, text.as_str())?;
        assert!(rt;
            found.as_str() == expected.as_str(),
            "{}: {}",
            *levels,
            found.as_str()
        );
    }
    Ok(())
}

#[test]
fn other_refusals(rt: HostRuntime) -> Result<(), Fail> {
    let alloc = rt.alloc();
    let found = answer(alloc, "package a:b; #")?;
    assert!(rt;
        found.as_str() == "no token begins at byte 13",
        "{}",
        found.as_str()
    );
    let said = format!(in alloc; "{}, {}", TreeError::Memory, TreeError::Size)?;
    assert!(rt; said.as_str() == "want of memory, too large");
    Ok(())
}
