//! Chains of names, so that a name is looked for in one chain alone.
ghost use Rattle.std.specs.Prelude.{◌≡◌, ◌≢◌, ◌<◌, ◌≤◌, ◌↔◌, ℕ, length, get_or, set, Some, None, IfSome, IfNone};
ghost use Rattle.std.specs.Prelude.{IsTrue, slice_get, MatchResult};
ghost use Rattle.reg_base.specs.Names.{texts, first_repeat as first_repeat_of};
ghost use Rattle.reg_base.specs.Chains.{chain, AreChains};
ghost use Rattle.reg_base.specs.declared.limits.TheConstants.{MOST_REGISTERS};

use crate::limits::MOST_REGISTERS;
use std::alloc::Allocator;

/// How many chains there are.
const CHAINS: usize = 4096;
/// How many names there may be.
const PLACES: usize = MOST_REGISTERS as usize;

/// The chains of some names: all names with one hash are in one chain, later ones first.
#[derive(Clone, Copy)]
pub struct Chains {
    /// For each hash, the place of the last name that has it, or 0.
    pub heads: [u16; CHAINS],
    /// For each place, that of the last name before it that has the same hash, or 0.
    pub earlier: [u16; PLACES],
}

/// The number of the chain that a name stands in.
fn chain_of(name: &[u8]) -> usize
    ensures value { result ≡ chain name.now }
    ensures within { result < CHAINS }
{
    let mut hash = 0;
    for byte in name {
        hash = (hash * 31 + usize::from(*byte)) % CHAINS;
    }
    hash
}

/// Whether this name stands at this place.
fn stands_at<A: Allocator>(names: &[String<A>], place: usize, name: &[u8]) -> bool
    ensures { IsTrue result ↔ (slice_get (texts names.now) place ≡ Some name.now) }
{
    match names.get(place) {
        Some(found) => found.as_bytes() == name,
        None => false,
    }
}

impl Chains {
    /// Adds the name after those that are chained.
    fn add(&mut self, place: u16, name: &[u8])
        requires { place < MOST_REGISTERS }
        ensures heads { self.new.heads ≡ set self.old.heads (chain name.now) place }
        ensures earlier { self.new.earlier ≡ set self.old.earlier place (get_or self.old.heads (chain name.now) 0) }
    {
        let chain = chain_of(name);
        self.earlier[usize::from(place)] = self.heads[chain];
        self.heads[chain] = place;
    }

    /// The place of a name, None where no place has it. The chains have to be those of these names.
    pub fn find<A: Allocator>(&self, names: &[String<A>], name: &[u8]) -> Option<u16>
        requires chains { AreChains (texts names.now) self.now.heads self.now.earlier }
        requires few { length names.now ≤ MOST_REGISTERS }
        ensures some { IfSome result (λ place. slice_get (texts names.now) place ≡ Some name.now) }
        ensures none { IfNone result ((place : ℕ) → slice_get (texts names.now) place ≢ Some name.now) }
    {
        let mut place = self.heads[chain_of(name)];
        for _turn in 0..PLACES {
            if stands_at(names, usize::from(place), name) {
                return Some(place);
            }
            if place == 0 {
                return None;
            }
            place = self.earlier[usize::from(place)];
        }
        None
    }
}

/// The chains of names that all differ, or the place of the first that stands earlier too.
pub fn chains_of<A: Allocator>(names: &[String<A>]) -> Result<Chains, usize>
    requires { length names.now ≤ MOST_REGISTERS }
    ensures { MatchResult result
        (λ c. AreChains (texts names.now) c.heads c.earlier × (first_repeat_of (texts names.now) ≡ None))
        (λ place. first_repeat_of (texts names.now) ≡ Some place) }
{
    let mut chains = Chains {
        heads: [0; CHAINS],
        earlier: [0; PLACES],
    };
    for (place, name) in names.iter().enumerate() {
        let name = name.as_bytes();
        if chains.find(&names[..place], name).is_some() {
            return Err(place);
        }
        chains.add(place as u16, name);
    }
    Ok(chains)
}
