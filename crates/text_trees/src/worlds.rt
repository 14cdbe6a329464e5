//! What worlds have, inclusions aside.
#![tactic(auto, using(crate::proofs::Going::going), unfolding(crate::specs::Reading::if_key))]

ghost use Rattle.std.specs.Prelude.{◌≡◌, ◌<◌, ◌≤◌, IfErr, IfOk};
ghost use Rattle.text_trees.specs.Reading.{Reading.Found};
ghost use Rattle.text_trees.specs.ReadFiles.{world_member_behind};
ghost use Rattle.text_trees.specs.Seen.{RefusesAs, ahead, count_of, docs_ahead, text_of};
ghost use Rattle.text_trees.specs.TreesSeen.{prefix_of, world_member_of, world_other_behind};

use crate::externs::extern_at;
use crate::front::{Tokens, begins_key};
use crate::paths::use_at;
use crate::refusal::Refusal;
use crate::sorts::declared_at;
use crate::tree::{Prefix, WorldMember};
use std::alloc::Global;
use text_tokens::Keyword;

/// What a world has that is no import and no export, behind what stands in front of it.
fn world_other_at(
    alloc: Global,
    tokens: &Tokens<'_>,
    prefix: Prefix,
    at: usize,
) -> Result<(WorldMember, usize), Refusal>
    requires { at ≤ count_of tokens.now }
    ensures ok { IfOk result (λ r. world_other_behind (docs_ahead tokens.now) 100 (prefix_of (text_of tokens.now) prefix) (ahead tokens.now at)
        ≡ Found (world_member_of (text_of tokens.now) r.0) (ahead tokens.now r.1)) }
    ensures err { IfErr result (λ e. RefusesAs tokens.now e
        (world_other_behind (docs_ahead tokens.now) 100 (prefix_of (text_of tokens.now) prefix) (ahead tokens.now at))) }
    ensures goes { IfOk result (λ r. at < r.1) }
    ensures within { IfOk result (λ r. r.1 ≤ count_of tokens.now) }
{
    if begins_key(tokens, Keyword::Use, at) {
        let ((path, names), behind) = use_at(alloc, tokens, at + 1)?;
        return Ok((WorldMember::WorldUse(prefix, path, names), behind));
    }
    let (declared, behind) = declared_at(alloc, tokens, at)?;
    Ok((WorldMember::WorldType(prefix, declared), behind))
}

/// What a world has, behind what stands in front of it.
pub(crate) fn world_member_at(
    alloc: Global,
    tokens: &Tokens<'_>,
    prefix: Prefix,
    at: usize,
) -> Result<(WorldMember, usize), Refusal>
    requires { at ≤ count_of tokens.now }
    ensures ok { IfOk result (λ r. world_member_behind (docs_ahead tokens.now) 100 (prefix_of (text_of tokens.now) prefix) (ahead tokens.now at)
        ≡ Found (world_member_of (text_of tokens.now) r.0) (ahead tokens.now r.1)) }
    ensures err { IfErr result (λ e. RefusesAs tokens.now e
        (world_member_behind (docs_ahead tokens.now) 100 (prefix_of (text_of tokens.now) prefix) (ahead tokens.now at))) }
    ensures goes { IfOk result (λ r. at < r.1) }
    ensures within { IfOk result (λ r. r.1 ≤ count_of tokens.now) }
{
    if begins_key(tokens, Keyword::Import, at) {
        let (it, behind) = extern_at(alloc, tokens, at + 1)?;
        return Ok((WorldMember::WorldImport(prefix, it), behind));
    }
    if begins_key(tokens, Keyword::Export, at) {
        let (it, behind) = extern_at(alloc, tokens, at + 1)?;
        return Ok((WorldMember::WorldExport(prefix, it), behind));
    }
    let (member, behind) = world_other_at(alloc, tokens, prefix, at)?;
    Ok((member, behind))
}
