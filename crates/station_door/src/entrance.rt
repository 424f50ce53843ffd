//! The entrance of a rule: its places behind a lock.
ghost use Rattle.std.specs.Prelude.{◌≡◌, None, IsSome, IfOk, length, vec_len};
ghost use Rattle.station_door.specs.Entrances.{AreNumbered};

use crate::places::Places;
use door_clerk::Bucket;
use door_file::NamedRule;
use std::alloc::{AllocError, Global};
use std::sync::{Mutex, Wait};

/// The places of one rule, behind the rule's own lock. It is held for a few instructions.
#[derive(Drop)]
pub(crate) struct Entrance {
    /// The rule's place in the door's list, from 0.
    pub(crate) place: usize,
    places: Mutex<Places>,
}

impl Entrance {
    /// The entrance of the rule at this place. Nobody has entered by it.
    pub(crate) fn new(place: usize, rule: &NamedRule) -> Entrance
        ensures { result.place ≡ place }
    {
        let places = Places::new(rule.connections, rule.rule.rate);
        Entrance {
            place,
            places: Mutex::new(places),
        }
    }

    /// Takes a place for a connection of this entrance's rule. The value is the bucket with which
    /// it begins.
    ///
    /// `None` is returned where all places are taken: never for a rule without a limit.
    pub(crate) fn take<R: Wait>(&self, rt: &R, rule: &NamedRule) -> Option<Bucket>
        ensures { result ≡ None → IsSome rule.now.connections }
    {
        let mut places = self.places.lock(rt);
        if rule.connections.is_none() {
            return Some(places.bucket());
        }
        places.take()
    }

    /// Gives back the place of a connection of this entrance's rule, which has left this bucket.
    pub(crate) fn give<R: Wait>(&self, rt: &R, rule: &NamedRule, bucket: &Bucket) {
        self.places.lock(rt).give(rule.rule.rate, bucket);
    }
}

/// An entrance for each of these rules, in their order.
pub(crate) fn entrances_of(alloc: Global, rules: &[NamedRule]) -> Result<Vec<Entrance>, AllocError>
    ensures each { IfOk result (λ made. vec_len made ≡ length rules.now) }
    ensures numbered { IfOk result (λ made. AreNumbered made.items) }
{
    let mut made = Vec::with_capacity(alloc, rules.len())?;
    for (place, rule) in rules.iter().enumerate() {
        made.push(Entrance::new(place, rule))?;
    }
    Ok(made)
}
