//! Names of tenants, tasks and messages.
ghost use Rattle.std.specs.Prelude.{◌≡◌, ◌≤◌, ◌↔◌, ◌++◌, IsTrue, IfSome, IsSome, length, nat_eq};
ghost use Rattle.std.specs.Cmp.{on_equiv, on_per, partial_equiv_from_equiv};
ghost use Rattle.std.specs.Cmp.Lexicographic.{pointwise, nat_list_eq_equiv};
ghost use Rattle.std.specs.Cmp.Rules.{hashing};
ghost use Rattle.std.specs.Hash as fed;
ghost use Rattle.std.proofs.Common.{rules};
ghost use Rattle.std.specs.List.{list_all};
ghost use Rattle.trace_types.specs.text.Name.{is_name, is_name_byte, is_same, root};
ghost use Rattle.trace_types.specs.text.NamePadding.{padded, word_at, words_of};

use std::hash::{Hash, Hasher};
use std::marker::Model;

/// A name of a tenant, a task or a message: 1 to 24 letters, digits or `_`, all of ASCII.
///
/// The text is stored inline, and a name is copied without memory. A contract sees the text.
#[derive(Clone, Copy, Debug)]
pub struct Name {
    /// The text, and then zeros.
    bytes: [u8; Name::MOST],
    pub(crate) len: u8,
}

impl Model for Name {
    ghost use Rattle.std.specs.Prelude.{◌≡◌, ℕ, List, length, take, IsTrue};
    ghost use Rattle.std.specs.List.{list_all};
    ghost use Rattle.trace_types.specs.text.Name.{Text, is_name};
    ghost use Rattle.trace_types.specs.text.NamePadding.{padded};

    ghost Value = { Text };

    ghost view = { λ n. take n.len n.bytes };

    ghost invariant = { λ n. (length (take n.len n.bytes) ≡ n.len) × (padded (take n.len n.bytes) ≡ n.bytes) × IsTrue (is_name (take n.len n.bytes)) };

    ghost inverse = { λ text. record { bytes = padded text; len = length text } };

    ghost inverse_ok = { λ n h i. record { bytes = h.1 i; len = h.0 i } };
}

impl Name {
    /// The most bytes of a name.
    pub const MOST: usize = 24;

    /// Returns the name that the bytes spell, or `None` exactly if they are no name. It takes no memory.
    pub fn read(text: &[u8]) -> Option<Name>
        ensures read { IsSome result ↔ IsTrue (is_name text.now) }
        ensures name { IfSome result (λ name. name ≡ text.now) }
    {
        if is_name(text) {
            Some(Name {
                bytes: padded(text),
                len: text.len() as u8,
            })
        } else {
            None
        }
    }

    /// The name `root`, of the task with which each tenant starts.
    pub fn root() -> Name
        ensures { result ≡ root }
    {
        Name {
            bytes: padded(b"root"),
            len: 4,
        }
    }

    /// The text of the name, 1 to 24 bytes.
    pub fn as_bytes(&self) -> &[u8]
        ensures text { result.now ≡ self.now }
        ensures name { IsTrue (is_name self.now) }
    {
        &self.bytes[..self.len as usize]
    }

    /// Whether this is the text of the name. It looks at the length and the last byte first, by which most names differ.
    #[inline(always)]
    pub(crate) fn is(&self, text: &[u8]) -> bool
        ensures same { result ≡ is_same self.now text.now }
        ensures name { IsTrue result → IsTrue (is_name text.now) }
    {
        let own = self.as_bytes();
        own.len() == text.len() && own[own.len() - 1] == text[own.len() - 1] && own == text
    }
}

fn is_name(text: &[u8]) -> bool
    ensures { result ≡ is_name text.now }
{
    1 <= text.len() && text.len() <= Name::MOST && has_only_name_bytes(text)
}

fn has_only_name_bytes(text: &[u8]) -> bool
    ensures { result ≡ list_all is_name_byte text.now }
{
    text.iter().all(|byte| is_name_byte(*byte))
}

fn is_name_byte(byte: u8) -> bool
    ensures { result ≡ is_name_byte byte }
{
    matches!(byte, b'A'..=b'Z' | b'a'..=b'z' | b'0'..=b'9' | b'_')
}

/// The text, and zeros after it.
fn padded(text: &[u8]) -> [u8; Name::MOST]
    requires { length text.now ≤ 24 }
    ensures { result ≡ padded text.now }
{
    let mut bytes = [0; Name::MOST];
    bytes[..text.len()].copy_from_slice(text);
    bytes
}

/// The word of the eight bytes from this place on.
#[inline(always)]
fn word_at(bytes: &[u8; Name::MOST], start: usize) -> u64
    requires { start ≤ 16 }
    ensures { result ≡ word_at start bytes.now }
{
    let rest = &bytes[start..];
    match rest.first_chunk::<8>() {
        Some(word) => u64::from_ne_bytes(*word),
        None => unreachable!(),
    }
}

/// The bytes as three words.
#[inline(always)]
fn words(bytes: &[u8; Name::MOST]) -> (u64, u64, u64)
    ensures { result ≡ words_of bytes.now }
{
    (word_at(bytes, 0), word_at(bytes, 8), word_at(bytes, 16))
}

/// Whether the bytes are the same. It compares them as three words.
#[inline(always)]
fn are_same(one: &[u8; Name::MOST], other: &[u8; Name::MOST]) -> bool
    ensures { result ≡ pointwise nat_eq one.now other.now }
{
    words(one) == words(other)
}

impl PartialEq for Name {
    ghost eq = { pointwise nat_eq };

    ghost laws = { partial_equiv_from_equiv nat_list_eq_equiv };

    /// Compares all bytes: behind the text both names have zeros.
    #[inline(always)]
    fn eq(&self, other: &Name) -> bool {
        self.len == other.len && are_same(&self.bytes, &other.bytes)
    }
}

impl Eq for Name {
    ghost laws = { nat_list_eq_equiv };
}

impl Hash for Name {
    ghost hash_input = { λ text. let words = words_of (padded text) in fed.u64 words.0 ++ fed.u64 words.1 ++ fed.u64 words.2 };

    ghost respects_eq = { Prim.search (hashing, rules) };

    /// Hashes the bytes as three words: behind the text each name has zeros.
    #[inline(always)]
    fn hash<H: Hasher>(&self, state: &mut H) {
        let (first, second, third) = words(&self.bytes);
        state.write_u64(first);
        state.write_u64(second);
        state.write_u64(third);
    }
}
