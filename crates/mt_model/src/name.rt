//! Names of hosts, propositions, messages, notes and clocks.

ghost use Rattle.std.specs.Prelude.{◌≡◌, true, IfOk, IfSome, is_some};
ghost use Rattle.std.specs.List.{list_all};
ghost use Rattle.mt_model.specs.Name.{is_name, is_letter, is_name_byte, is_reserved};

use crate::MAX_NAME_LENGTH;
use std::alloc::{AllocError, Global};
use std::hash::{Hash, Hasher};
use std::marker::Model;

/// A name of a host, a proposition, a message, a note or a clock: 1 to 32 bytes, the first of them `a` to
/// `z`, the others `a` to `z`, `0` to `9` or `_`. Contracts see it as its bytes.
#[derive(Drop)]
pub struct Name {
    bytes: Vec<u8>,
}

impl Model for Name {
    ghost use Rattle.std.specs.Prelude.{◌≡◌, List, ℕ, true};
    ghost use Rattle.mt_model.specs.Name.{is_name};

    ghost Value = { List ℕ };

    ghost view = { λ n. n.bytes.items };

    ghost invariant = { λ n. is_name n.bytes.items ≡ true };
}

impl PartialEq for Name {
    ghost use Rattle.std.specs.Prelude.{bytes_eq};
    ghost use Rattle.std.specs.Cmp.Rules.{comparing};
    ghost use Rattle.std.proofs.Common.{rules};

    ghost eq = { λ a b. bytes_eq a b };

    ghost laws = { Prim.search (comparing, rules) };

    fn eq(&self, other: &Name) -> bool {
        self.bytes() == other.bytes()
    }
}

impl Eq for Name {
    ghost use Rattle.std.specs.Cmp.Rules.{comparing};
    ghost use Rattle.std.proofs.Common.{rules};

    ghost laws = { Prim.search (comparing, rules) };
}

impl Hash for Name {
    ghost use Rattle.std.specs.Hash as fed;
    ghost use Rattle.std.specs.Cmp.Rules.{hashing};
    ghost use Rattle.std.proofs.Common.{rules};

    ghost hash_input = { λ a. fed.slice fed.u8 a };

    ghost respects_eq = { Prim.search (hashing, rules) };

    fn hash<H: Hasher>(&self, state: &mut H) {
        self.bytes().hash(state);
    }
}

fn is_start(b: u8) -> bool
    ensures { result ≡ is_letter b }
{
    b >= b'a' && b <= b'z'
}

fn is_part(b: u8) -> bool
    ensures { result ≡ is_name_byte b }
{
    is_start(b) || (b >= b'0' && b <= b'9') || b == b'_'
}

fn are_parts(bytes: &[u8]) -> bool
    ensures { result ≡ list_all is_name_byte bytes.now }
{
    bytes.iter().all(|b| is_part(*b))
}

fn names(bytes: &[u8]) -> bool
    ensures { result ≡ is_name bytes.now }
{
    match bytes {
        [] => false,
        [first, rest @ ..] => {
            is_start(*first) && are_parts(rest) && bytes.len() <= MAX_NAME_LENGTH
        }
    }
}

impl Name {
    /// The name of these bytes, and None exactly where they are no name.
    pub fn new(alloc: Global, bytes: &[u8]) -> Result<Option<Name>, AllocError>
        ensures found { IfOk result (λ n. is_some n ≡ is_name bytes.now) }
        ensures same { IfOk result (λ n. IfSome n (λ name. name ≡ bytes.now)) }
    {
        if names(bytes) {
            Ok(Some(Name {
                bytes: bytes.to_vec(alloc)?,
            }))
        } else {
            Ok(None)
        }
    }

    /// An equal name, in memory of its own.
    pub fn copy(&self, alloc: Global) -> Result<Name, AllocError>
        ensures same { IfOk result (λ name. name ≡ self.now) }
    {
        Ok(Name {
            bytes: self.bytes.as_slice().to_vec(alloc)?,
        })
    }

    /// Its bytes.
    pub fn bytes(&self) -> &[u8]
        ensures same { result.now ≡ self.now }
        ensures name { is_name self.now ≡ true }
    {
        &self.bytes
    }
}

/// Whether a name is `true`, `false` or `inf`, which name no host.
pub fn is_reserved_name(name: &Name) -> bool
    ensures reserved { result ≡ is_reserved name.now }
    ensures name { is_name name.now ≡ true }
{
    let bytes = name.bytes();
    bytes == b"true".as_slice() || bytes == b"false".as_slice() || bytes == b"inf".as_slice()
}
