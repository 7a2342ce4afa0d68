//! The names of all tenants.
ghost use Rattle.std.specs.Prelude.{◌≡◌, ◌↔◌, ◌<◌, ℕ, Some, length, map, slice_get, string_bytes, IsTrue, IfSome, IsSome};
ghost use Rattle.trace_types.specs.text.Name.{is_name};
ghost use Rattle.trace_types.specs.world.Replay.{place_of};
ghost use Rattle.trace_types.specs.world.TenantNames.{are_distinct, are_tenants, can_be_tenants};

use crate::Name;
use std::marker::Model;

/// The names of all tenants: 1 to 16 names, none of which stands twice.
///
/// They are stored inline, and take no memory. A contract sees the list of their texts.
#[derive(Debug, Drop)]
pub struct TenantNames {
    /// The names, and then other ones.
    names: [Name; TenantNames::MOST],
    count: usize,
}

impl Model for TenantNames {
    ghost use Rattle.std.specs.Prelude.{◌≡◌, List, length, take, IsTrue};
    ghost use Rattle.trace_types.specs.text.Name.{Text};
    ghost use Rattle.trace_types.specs.world.TenantNames.{can_be_tenants};

    ghost Value = { List Text };

    ghost view = { λ n. take n.count n.names };

    ghost invariant = { λ n. (length (take n.count n.names) ≡ n.count) × IsTrue (can_be_tenants (take n.count n.names)) };
}

impl TenantNames {
    /// The most tenants.
    pub const MOST: usize = 16;

    /// Returns exactly these names, or `None` exactly if they cannot be those of all tenants. It takes no memory.
    pub fn of(names: &[Name]) -> Option<TenantNames>
        ensures tenants { IsSome result ↔ IsTrue (can_be_tenants names.now) }
        ensures names { IfSome result (λ tenants. tenants ≡ names.now) }
    {
        if can_be_tenants(names) {
            let mut all = [Name::root(); TenantNames::MOST];
            all[..names.len()].copy_from_slice(names);
            Some(TenantNames {
                names: all,
                count: names.len(),
            })
        } else {
            None
        }
    }

    /// Returns the names that these texts spell, or `None` exactly if one is no name or they cannot be those of all
    /// tenants. It takes no memory.
    pub fn read(texts: &[String]) -> Option<TenantNames>
        ensures tenants { IsSome result ↔ IsTrue (are_tenants (map string_bytes texts.now)) }
        ensures names { IfSome result (λ tenants. tenants ≡ map string_bytes texts.now) }
    {
        if texts.len() > TenantNames::MOST {
            return None;
        }
        let mut names = [Name::root(); TenantNames::MOST];
        for (place, text) in texts.iter().enumerate() {
            names[place] = Name::read(text.as_bytes())?;
        }
        TenantNames::of(&names[..texts.len()])
    }

    /// The names, in order.
    pub fn as_slice(&self) -> &[Name]
        ensures names { result.now ≡ self.now }
        ensures tenants { IsTrue (can_be_tenants self.now) }
    {
        &self.names[..self.count]
    }

    /// The place of the name that has this text, from 0.
    #[inline(always)]
    pub fn find(&self, text: &[u8]) -> Option<usize>
        ensures place { result ≡ place_of self.now text.now }
        ensures stands { (place : ℕ) → (result ≡ Some place) ↔ (slice_get self.now place ≡ Some text.now) }
        ensures within { IfSome result (λ place. place < length self.now) }
        ensures name { IfSome result (λ _. IsTrue (is_name text.now)) }
    {
        place_of(self.as_slice(), text)
    }
}

fn can_be_tenants(names: &[Name]) -> bool
    ensures { result ≡ can_be_tenants names.now }
{
    1 <= names.len() && names.len() <= TenantNames::MOST && are_distinct(names)
}

fn are_distinct(names: &[Name]) -> bool
    ensures { result ≡ are_distinct names.now }
{
    for (place, name) in names.iter().enumerate() {
        if names[place + 1..].contains(name) {
            return false;
        }
    }
    true
}

#[inline(always)]
fn place_of(names: &[Name], text: &[u8]) -> Option<usize>
    ensures place { result ≡ place_of names.now text.now }
    ensures name { IfSome result (λ _. IsTrue (is_name text.now)) }
{
    for (place, name) in names.iter().enumerate() {
        if name.is(text) {
            return Some(place);
        }
    }
    None
}
