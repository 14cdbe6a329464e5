//! Types of functions, each kept once.

ghost use Rattle.std.specs.Prelude.{◌≡◌, ◌<◌, ◌^◌, ◌==◌, [], length, map, option_map, slice_get, IfOk, OnOk, OnErr, IsOkUnless, Some};
ghost use Rattle.read_follow.specs.Functions.{function_shape, AreApart, Joins};
ghost use Rattle.read_follow.specs.declared.refusal.Refusal.TheVariants as refusals;

use crate::keys::FunctionKey;
use crate::refusal::Refusal;
use indexmap::IndexSet;
use keyed_hash::KeyedHash;
use std::alloc::Global;
use std::marker::Model;

/// Types of functions, each kept once. Their numbers are the order in which they came.
#[derive(Drop)]
pub struct Functions<'a> {
    keys: IndexSet<FunctionKey<'a>, KeyedHash>,
}

impl<'a> Model for Functions<'a> {
    ghost use Rattle.std.specs.Prelude.{List, map};
    ghost use Rattle.read_follow.specs.Functions.{function_shape, AreApart, FunctionShape};

    ghost Value = { List FunctionShape };

    ghost view = { λ f. map function_shape f.keys.keys };

    ghost invariant = { λ f. AreApart (map function_shape f.keys.keys) };
}

/// The number of the key among the keys.
fn put<'a>(
    keys: &mut IndexSet<FunctionKey<'a>, KeyedHash>,
    key: FunctionKey<'a>,
) -> Result<usize, Refusal>
    requires { AreApart (map function_shape keys.old.keys) }
    ensures apart { AreApart (map function_shape keys.new.keys) }
    ensures found { IfOk result (λ n. slice_get (map function_shape keys.new.keys) n ≡ Some (function_shape key.entry)) }
    ensures small { IfOk result (λ n. n < 2 ^ 63) }
    ensures joins { OnOk result (Joins (map function_shape keys.old.keys) (function_shape key.entry) (map function_shape keys.new.keys)) }
    ensures memory { IsOkUnless result refusals.Memory }
    ensures err { OnErr result (keys.new.keys ≡ keys.old.keys) }
{
    let (number, _is_new) = keys.insert_full(key)?;
    let _count = keys.len();
    Ok(number)
}

impl<'a> Functions<'a> {
    /// A table without types of functions, which hashes so. Takes no memory.
    pub fn new(alloc: Global, hash: KeyedHash) -> Functions<'a>
        ensures { result ≡ [] }
    {
        Functions {
            keys: IndexSet::with_hasher(alloc, hash),
        }
    }

    /// How many types of functions there are. Takes constant time.
    pub fn len(&self) -> usize
        ensures many { result ≡ length self.now }
        ensures small { result < 2 ^ 63 }
    {
        self.keys.len()
    }

    /// Whether there are no types of functions. Takes constant time.
    pub fn is_empty(&self) -> bool
        ensures { result ≡ (length self.now == 0) }
    {
        self.len() == 0
    }

    /// What the type of this number is, if there is one. Takes constant time.
    pub fn key(&self, number: usize) -> Option<&FunctionKey<'a>>
        ensures { option_map (λ key. function_shape key.now) result ≡ slice_get self.now number }
    {
        self.keys.get_index(number)
    }

    /// No type stands twice. Does nothing.
    pub fn are_apart(&self)
        ensures { AreApart self.now }
    {
        let _count = self.keys.len();
    }

    /// The number that the type has from now on: its own, if it stands in the table, or the next.
    ///
    /// Takes time linear in the key. Refuses with `Memory` alone, and then the table is as it was.
    pub fn number_of(&mut self, key: FunctionKey<'a>) -> Result<usize, Refusal>
        ensures found { IfOk result (λ n. slice_get self.new n ≡ Some (function_shape key.entry)) }
        ensures small { IfOk result (λ n. n < 2 ^ 63) }
        ensures joins { OnOk result (Joins self.old (function_shape key.entry) self.new) }
        ensures apart { AreApart self.new }
        ensures memory { IsOkUnless result refusals.Memory }
        ensures err { OnErr result (self.new ≡ self.old) }
    {
        put(&mut self.keys, key)
    }
}
