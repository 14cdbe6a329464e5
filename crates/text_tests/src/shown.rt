//! Trees, written with brackets, and documentation between number signs.

use std::alloc::{AllocError, Global};
use text_tokens::{Primitive, documentation};
use text_trees::{
    CaseTree, Declared, ExternTree, FieldTree, Gates, LabelTree, MemberTree, PackageHead,
    ParamTree, PathTree, Prefix, ResourceMember, SignatureTree, Span, TextItem, TextTree, TypeTree,
    UsedName, WorldMember, WorldPart,
};

// A text, and what has been written of its tree.
#[derive(Drop)]
struct Page<'a> {
    text: &'a str,
    written: String,
}

type Written = Result<(), AllocError>;

// What a span has.
fn put_span(alloc: Global, page: &mut Page<'_>, span: Span) -> Written {
    let bytes = page.text.as_bytes();
    let (start, end) = (span.start as usize, span.end as usize);
    if start > end || end > bytes.len() {
        return page.written.push_str("?");
    }
    let part = String::from_utf8_lossy(alloc, &bytes[start..end])?;
    page.written.push_str(&part)
}

// What a span has, behind some words and in front of others.
fn put_with(alloc: Global, page: &mut Page<'_>, before: &str, span: Span, after: &str) -> Written {
    page.written.push_str(before)?;
    put_span(alloc, page, span)?;
    page.written.push_str(after)
}

// What a span has, if there is one, behind some words and in front of others.
fn put_option(
    alloc: Global,
    page: &mut Page<'_>,
    before: &str,
    span: Option<Span>,
    after: &str,
) -> Written {
    match span {
        Some(span) => put_with(alloc, page, before, span, after),
        None => Ok(()),
    }
}

// The documentation in a gap, if there is any, between number signs.
fn put_docs(alloc: Global, page: &mut Page<'_>, gap: Span) -> Written {
    let Some(text) = page.text.get(gap.start as usize..gap.end as usize) else {
        return page.written.push_str("?");
    };
    let docs = documentation(alloc, text)?;
    match &docs.contents {
        Some(contents) => {
            page.written.push_str("#")?;
            page.written.push_str(contents)?;
            page.written.push_str("# ")
        }
        None => Ok(()),
    }
}

// A blank in front of all but the first.
fn put_between(page: &mut Page<'_>, index: usize) -> Written {
    if index == 0 {
        Ok(())
    } else {
        page.written.push_str(" ")
    }
}

// ---- types

// What a type begins with.
fn head_of(ty: &TypeTree) -> &'static str {
    match ty {
        TypeTree::PrimitiveType(_) | TypeTree::Name(_) => "",
        TypeTree::Own(_) => "own[",
        TypeTree::Borrow(_) => "borrow[",
        TypeTree::TupleOf(_) => "tuple[",
        TypeTree::OptionOf(_) => "option[",
        TypeTree::ListOf(_) | TypeTree::FixedListOf(_, _) => "list[",
        TypeTree::MapOf(_, _) => "map[",
        TypeTree::Result => "result",
        TypeTree::ResultOk(_) | TypeTree::ResultOf(_, _) => "result[",
        TypeTree::ResultErr(_) => "result[_ ",
        TypeTree::Future => "future",
        TypeTree::FutureOf(_) => "future[",
        TypeTree::Stream => "stream",
        TypeTree::StreamOf(_) => "stream[",
    }
}

fn put_primitive(alloc: Global, page: &mut Page<'_>, primitive: Primitive) -> Written {
    let word = format!(in alloc; "{primitive:?}")?;
    page.written.push_str(&word)
}

fn put_type(alloc: Global, page: &mut Page<'_>, ty: &TypeTree) -> Written {
    page.written.push_str(head_of(ty))?;
    match ty {
        TypeTree::PrimitiveType(primitive) => put_primitive(alloc, page, *primitive),
        TypeTree::Name(name) => put_span(alloc, page, *name),
        TypeTree::Own(name) | TypeTree::Borrow(name) => put_with(alloc, page, "", *name, "]"),
        TypeTree::TupleOf(types) => {
            for (index, ty) in types.iter().enumerate() {
                put_between(page, index)?;
                put_type(alloc, page, ty)?;
            }
            page.written.push_str("]")
        }
        TypeTree::OptionOf(ty)
        | TypeTree::ListOf(ty)
        | TypeTree::ResultOk(ty)
        | TypeTree::ResultErr(ty)
        | TypeTree::FutureOf(ty)
        | TypeTree::StreamOf(ty) => {
            put_type(alloc, page, ty)?;
            page.written.push_str("]")
        }
        TypeTree::FixedListOf(ty, digits) => {
            put_type(alloc, page, ty)?;
            put_with(alloc, page, " ", *digits, "]")
        }
        TypeTree::MapOf(one, other) | TypeTree::ResultOf(one, other) => {
            put_type(alloc, page, one)?;
            page.written.push_str(" ")?;
            put_type(alloc, page, other)?;
            page.written.push_str("]")
        }
        TypeTree::Result | TypeTree::Future | TypeTree::Stream => Ok(()),
    }
}

fn put_params(alloc: Global, page: &mut Page<'_>, params: &[ParamTree]) -> Written {
    page.written.push_str("(")?;
    for (index, param) in params.iter().enumerate() {
        put_between(page, index)?;
        put_with(alloc, page, "", param.name, "=")?;
        put_type(alloc, page, &param.ty)?;
    }
    page.written.push_str(")")
}

// An arrow and a type, if there is one.
fn put_arrow(alloc: Global, page: &mut Page<'_>, ty: &Option<TypeTree>) -> Written {
    match ty {
        Some(ty) => {
            page.written.push_str("->")?;
            put_type(alloc, page, ty)
        }
        None => Ok(()),
    }
}

fn put_signature(alloc: Global, page: &mut Page<'_>, signature: &SignatureTree) -> Written {
    page.written
        .push_str(if signature.is_async { "async" } else { "" })?;
    put_params(alloc, page, &signature.params)?;
    put_arrow(alloc, page, &signature.result)
}

// ---- what stands in front of an item, paths, uses

fn put_gates(alloc: Global, page: &mut Page<'_>, gates: Gates) -> Written {
    match gates {
        Gates::Ungated => Ok(()),
        Gates::Since(version, deprecated) => {
            put_with(alloc, page, "since ", version, " ")?;
            put_option(alloc, page, "until ", deprecated, " ")
        }
        Gates::Unstable(feature, deprecated) => {
            put_with(alloc, page, "unstable ", feature, " ")?;
            put_option(alloc, page, "until ", deprecated, " ")
        }
    }
}

fn put_prefix(alloc: Global, page: &mut Page<'_>, prefix: Prefix) -> Written {
    put_docs(alloc, page, prefix.docs)?;
    put_gates(alloc, page, prefix.gates)?;
    put_option(alloc, page, "id ", prefix.external_id, " ")
}

fn put_path(alloc: Global, page: &mut Page<'_>, path: PathTree) -> Written {
    match path {
        PathTree::Local(name) => put_span(alloc, page, name),
        PathTree::Full(namespace, name, interface, version) => {
            put_with(alloc, page, "[", namespace, " ")?;
            put_with(alloc, page, "", name, " ")?;
            put_span(alloc, page, interface)?;
            put_option(alloc, page, " ", version, "")?;
            page.written.push_str("]")
        }
    }
}

fn put_names(alloc: Global, page: &mut Page<'_>, names: &[UsedName]) -> Written {
    for used in names {
        put_with(alloc, page, " ", used.other, "")?;
        put_option(alloc, page, "=", used.own, "")?;
    }
    Ok(())
}

fn put_use(alloc: Global, page: &mut Page<'_>, path: PathTree, names: &[UsedName]) -> Written {
    page.written.push_str("use ")?;
    put_path(alloc, page, path)?;
    put_names(alloc, page, names)
}

// ---- declared types

fn put_fields(alloc: Global, page: &mut Page<'_>, fields: &[FieldTree]) -> Written {
    for field in fields {
        page.written.push_str(" ")?;
        put_docs(alloc, page, field.docs)?;
        put_with(alloc, page, "", field.name, "=")?;
        put_type(alloc, page, &field.ty)?;
    }
    Ok(())
}

fn put_cases(alloc: Global, page: &mut Page<'_>, cases: &[CaseTree]) -> Written {
    for case in cases {
        page.written.push_str(" ")?;
        put_docs(alloc, page, case.docs)?;
        put_span(alloc, page, case.name)?;
        put_arrow(alloc, page, &case.payload)?;
    }
    Ok(())
}

fn put_labels(alloc: Global, page: &mut Page<'_>, labels: &[LabelTree]) -> Written {
    for label in labels {
        page.written.push_str(" ")?;
        put_docs(alloc, page, label.docs)?;
        put_span(alloc, page, label.name)?;
    }
    Ok(())
}

fn put_function(alloc: Global, page: &mut Page<'_>, member: &ResourceMember) -> Written {
    match member {
        ResourceMember::Constructor(prefix, params, result) => {
            put_prefix(alloc, page, *prefix)?;
            page.written.push_str("new")?;
            put_params(alloc, page, params)?;
            put_arrow(alloc, page, result)
        }
        ResourceMember::Method(prefix, name, signature) => {
            put_prefix(alloc, page, *prefix)?;
            put_with(alloc, page, "method ", *name, " ")?;
            put_signature(alloc, page, signature)
        }
        ResourceMember::Static(prefix, name, signature) => {
            put_prefix(alloc, page, *prefix)?;
            put_with(alloc, page, "static ", *name, " ")?;
            put_signature(alloc, page, signature)
        }
    }
}

fn put_functions(alloc: Global, page: &mut Page<'_>, members: &[ResourceMember]) -> Written {
    for member in members {
        page.written.push_str(" {")?;
        put_function(alloc, page, member)?;
        page.written.push_str("}")?;
    }
    Ok(())
}

fn put_declared(alloc: Global, page: &mut Page<'_>, declared: &Declared) -> Written {
    match declared {
        Declared::RecordOf(name, fields) => {
            put_with(alloc, page, "record ", *name, "")?;
            put_fields(alloc, page, fields)
        }
        Declared::VariantOf(name, cases) => {
            put_with(alloc, page, "variant ", *name, "")?;
            put_cases(alloc, page, cases)
        }
        Declared::FlagsOf(name, flags) => {
            put_with(alloc, page, "flags ", *name, "")?;
            put_labels(alloc, page, flags)
        }
        Declared::EnumOf(name, cases) => {
            put_with(alloc, page, "enum ", *name, "")?;
            put_labels(alloc, page, cases)
        }
        Declared::AliasOf(name, ty) => {
            put_with(alloc, page, "type ", *name, "=")?;
            put_type(alloc, page, ty)
        }
        Declared::ResourceOf(name, members) => {
            put_with(alloc, page, "resource ", *name, "")?;
            put_functions(alloc, page, members)
        }
    }
}

// ---- interfaces and worlds

fn put_member(alloc: Global, page: &mut Page<'_>, member: &MemberTree) -> Written {
    match member {
        MemberTree::UseMember(prefix, path, names) => {
            put_prefix(alloc, page, *prefix)?;
            put_use(alloc, page, *path, names)
        }
        MemberTree::TypeMember(prefix, declared) => {
            put_prefix(alloc, page, *prefix)?;
            put_declared(alloc, page, declared)
        }
        MemberTree::FunctionMember(prefix, name, signature) => {
            put_prefix(alloc, page, *prefix)?;
            put_with(alloc, page, "func ", *name, " ")?;
            put_signature(alloc, page, signature)
        }
    }
}

fn put_members(alloc: Global, page: &mut Page<'_>, members: &[MemberTree]) -> Written {
    for member in members {
        page.written.push_str(" {")?;
        put_member(alloc, page, member)?;
        page.written.push_str("}")?;
    }
    Ok(())
}

fn put_extern(alloc: Global, page: &mut Page<'_>, item: &ExternTree) -> Written {
    match item {
        ExternTree::Path(path) => put_path(alloc, page, *path),
        ExternTree::NamedFunction(name, signature) => {
            put_with(alloc, page, "func ", *name, " ")?;
            put_signature(alloc, page, signature)
        }
        ExternTree::NamedPath(name, path) => {
            put_with(alloc, page, "", *name, "=")?;
            put_path(alloc, page, *path)
        }
        ExternTree::NamedInterface(name, members) => {
            put_with(alloc, page, "interface ", *name, "")?;
            put_members(alloc, page, members)
        }
    }
}

fn put_world_member(alloc: Global, page: &mut Page<'_>, member: &WorldMember) -> Written {
    match member {
        WorldMember::WorldUse(prefix, path, names) => {
            put_prefix(alloc, page, *prefix)?;
            put_use(alloc, page, *path, names)
        }
        WorldMember::WorldType(prefix, declared) => {
            put_prefix(alloc, page, *prefix)?;
            put_declared(alloc, page, declared)
        }
        WorldMember::WorldImport(prefix, item) => {
            put_prefix(alloc, page, *prefix)?;
            page.written.push_str("import ")?;
            put_extern(alloc, page, item)
        }
        WorldMember::WorldExport(prefix, item) => {
            put_prefix(alloc, page, *prefix)?;
            page.written.push_str("export ")?;
            put_extern(alloc, page, item)
        }
    }
}

fn put_part(alloc: Global, page: &mut Page<'_>, part: &WorldPart) -> Written {
    match part {
        WorldPart::Has(member) => put_world_member(alloc, page, member),
        WorldPart::Includes(prefix, path, names) => {
            put_prefix(alloc, page, *prefix)?;
            page.written.push_str("include ")?;
            put_path(alloc, page, *path)?;
            put_names(alloc, page, names)
        }
    }
}

fn put_parts(alloc: Global, page: &mut Page<'_>, parts: &[WorldPart]) -> Written {
    for part in parts {
        page.written.push_str(" {")?;
        put_part(alloc, page, part)?;
        page.written.push_str("}")?;
    }
    Ok(())
}

fn put_item(alloc: Global, page: &mut Page<'_>, item: &TextItem) -> Written {
    match item {
        TextItem::AnInterface(docs, gates, name, members) => {
            put_docs(alloc, page, *docs)?;
            put_gates(alloc, page, *gates)?;
            put_with(alloc, page, "interface ", *name, "")?;
            put_members(alloc, page, members)
        }
        TextItem::AWorld(docs, gates, name, parts) => {
            put_docs(alloc, page, *docs)?;
            put_gates(alloc, page, *gates)?;
            put_with(alloc, page, "world ", *name, "")?;
            put_parts(alloc, page, parts)
        }
        TextItem::AName(path, own) => {
            page.written.push_str("use ")?;
            put_path(alloc, page, *path)?;
            put_option(alloc, page, "=", *own, "")
        }
    }
}

fn put_items(alloc: Global, page: &mut Page<'_>, items: &[TextItem]) -> Written {
    for item in items {
        page.written.push_str(" {")?;
        put_item(alloc, page, item)?;
        page.written.push_str("}")?;
    }
    Ok(())
}

// ---- packages and texts

fn put_head(alloc: Global, page: &mut Page<'_>, docs: Span, head: PackageHead) -> Written {
    put_docs(alloc, page, docs)?;
    put_with(alloc, page, "", head.namespace, " ")?;
    put_span(alloc, page, head.name)?;
    put_option(alloc, page, " ", head.version, "")
}

/// The tree of a text: what names its package, or `-`, and its items; and then the nested packages, each behind a `|`.
pub(crate) fn shown(alloc: Global, text: &str, tree: &TextTree) -> Result<String, AllocError> {
    let mut page = Page {
        text,
        written: String::new(alloc),
    };
    match tree.head {
        Some(head) => put_head(alloc, &mut page, tree.docs, head)?,
        None => page.written.push_str("-")?,
    }
    put_items(alloc, &mut page, &tree.items)?;
    for nested in &tree.nested {
        page.written.push_str(" | ")?;
        put_head(alloc, &mut page, nested.docs, nested.head)?;
        put_items(alloc, &mut page, &nested.items)?;
    }
    Ok(page.written)
}
