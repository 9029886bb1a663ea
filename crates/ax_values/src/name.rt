ghost use Rattle.std.specs.Prelude.{◌≡◌, nat_eq, ◌++◌, Some, OnOk, OnErr, IfOk, IfSome, IsTrue, refl};
ghost use Rattle.std.proofs.Common.{rules};
ghost use Rattle.std.specs.Cmp.{partial_equiv_from_equiv, partial_order_from_own_ties};
ghost use Rattle.std.specs.Cmp.Lexicographic.{pointwise, slice_cmp, nat_list_eq_equiv};
ghost use Rattle.std.specs.Cmp.Rules.{comparing, hashing};
ghost use Rattle.std.specs.Hash as fed;
ghost use Rattle.std.specs.Ordering.{nat_cmp, as_partial_cmp};
ghost use Rattle.std.specs.List.{list_all};
ghost use Rattle.ax_values.specs.Grammar.{IsReadBack, is_name, is_name_byte, is_letter_or_digit, name_in};
ghost use Rattle.ax_values.specs.Words.{same_name};

use crate::{Duplicate, ListOf, NoMemory};
use smallvec::SmallVec;
use std::alloc::Global;
use std::cmp::Ordering;
use std::hash::{Hash, Hasher};
use std::marker::Model;

/// A name: 1 to 64 bytes, a letter or digit, and then letters, digits, `_` or `-`.
/// The usual text of a UUID is one. Up to 24 bytes stand in the value itself, so most names take no memory of their own.
#[derive(Drop)]
pub struct Name {
    bytes: SmallVec<u8, 24>,
}

pub type Names = ListOf<Name>;

impl Model for Name {
    ghost use Rattle.std.specs.Prelude.{ℕ, List, IsTrue};
    ghost use Rattle.std.specs.Coded.{coded_list, coded_ℕ};
    ghost use Rattle.ax_values.specs.Grammar.{is_name};

    ghost Value = { List ℕ };

    ghost coded = { coded_list coded_ℕ };

    ghost view = { λ name. name.bytes.items };

    ghost invariant = { λ name. IsTrue (is_name name.bytes.items) };
}

impl Name {
    /// The name of these bytes. It takes no memory.
    pub fn of(parts: Vec<u8>) -> Name
        requires { IsTrue (is_name parts.items) }
        ensures { result ≡ parts.items }
    {
        Name {
            bytes: SmallVec::from_vec(parts),
        }
    }

    /// The name's bytes.
    pub fn parts(&self) -> &[u8]
        ensures value { result.now ≡ self.now }
        ensures grammar { IsTrue (is_name self.now) }
    {
        self.bytes.as_slice()
    }

    /// The name that the text is. None comes exactly outside the grammar of names.
    pub fn read(alloc: Global, text: &[u8]) -> Result<Option<Name>, NoMemory>
        ensures value { IfOk result (λ read. read ≡ name_in text.now) }
        ensures written { IfOk result (λ read. IfSome read (λ name. name ≡ text.now)) }
    {
        if !is_name(text) {
            return Ok(None);
        }
        Ok(Some(Name {
            bytes: SmallVec::from_slice(alloc, text)?,
        }))
    }

    /// Adds the name's bytes. Where memory is wanting, nothing is added.
    #[tactic(auto, unfolding(crate::specs::Grammar::IsReadBack))]
    pub fn write(&self, out: &mut Vec<u8>) -> Result<(), NoMemory>
        ensures ok { OnOk result (out.new.items ≡ out.old.items ++ self.now) }
        ensures err { OnErr result (out.new.items ≡ out.old.items) }
        ensures again { IsReadBack name_in self.now self.now }
    {
        out.extend_from_slice(self.parts())?;
        Ok(())
    }

    /// Whether two names are the same.
    pub fn same(&self, other: &Name) -> bool
        ensures { result ≡ same_name self.now other.now }
    {
        self.parts() == other.parts()
    }
}

impl Duplicate for Name {
    fn copy(&self, alloc: Global) -> Result<Name, NoMemory> {
        Ok(Name {
            bytes: SmallVec::from_slice(alloc, self.parts())?,
        })
    }
}

impl PartialEq for Name {
    ghost eq = { pointwise nat_eq };

    ghost laws = { partial_equiv_from_equiv nat_list_eq_equiv };

    fn eq(&self, other: &Name) -> bool {
        self.parts() == other.parts()
    }
}

impl Eq for Name {
    ghost laws = { nat_list_eq_equiv };
}

impl PartialOrd for Name {
    ghost partial_cmp = { as_partial_cmp (slice_cmp nat_cmp) };

    ghost laws = { partial_order_from_own_ties (Prim.search (comparing, rules)) (Prim.search (comparing, rules)) };

    fn partial_cmp(&self, other: &Name) -> Option<Ordering> {
        Some(self.cmp(other))
    }
}

impl Ord for Name {
    ghost cmp = { slice_cmp nat_cmp };

    ghost total = { Prim.search (comparing, rules) };

    ghost matches_partial_cmp = { λ x y. refl };

    ghost matches_eq = { Prim.search (comparing, rules) };

    fn cmp(&self, other: &Name) -> Ordering {
        self.parts().cmp(other.parts())
    }
}

impl Hash for Name {
    ghost hash_input = { fed.slice fed.u8 };

    ghost respects_eq = { Prim.search (hashing, rules) };

    fn hash<H: Hasher>(&self, state: &mut H) {
        self.parts().hash(state);
    }
}

fn is_letter_or_digit(byte: u8) -> bool
    ensures { result ≡ is_letter_or_digit byte }
{
    byte.is_ascii_digit() || byte.is_ascii_uppercase() || byte.is_ascii_lowercase()
}

fn is_name_byte(byte: u8) -> bool
    ensures { result ≡ is_name_byte byte }
{
    is_letter_or_digit(byte) || byte == b'_' || byte == b'-'
}

fn are_name_bytes(text: &[u8]) -> bool
    ensures { result ≡ list_all is_name_byte text.now }
{
    text.iter().all(|&byte| is_name_byte(byte))
}

fn is_name(text: &[u8]) -> bool
    ensures { result ≡ is_name text.now }
{
    match text {
        [] => false,
        [first, rest @ ..] => {
            is_letter_or_digit(*first) && are_name_bytes(rest) && rest.len() <= 63
        }
    }
}
