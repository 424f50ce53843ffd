//! A connection's place at a station's door.
ghost use Rattle.std.specs.Prelude.{◌≡◌};

use crate::entrance::Entrance;
use door_clerk::Bucket;
use door_file::NamedRule;
use std::sync::Wait;

/// A connection's place at a station's door. `StationDoor::enter` alone makes one.
///
/// It is no `Drop`: only `leave` ends it, and a program that lets one go otherwise doesn't compile.
/// So no place is kept for ever.
pub struct Pass<'a> {
    /// The place of the connection's rule in `StationDoor::rules`, from 0.
    pub place: usize,
    /// The rule.
    pub rule: &'a NamedRule,
    /// The bucket with which the connection begins.
    pub bucket: Bucket,
    /// The entrance of the rule, by which the connection leaves as well.
    pub(crate) entrance: &'a Entrance,
    ghost entered: { entrance.now.place ≡ place },
}

impl Pass<'_> {
    /// Gives the place back, with the bucket as the connection left it. It waits for the rule's
    /// lock.
    ///
    /// The next connection of the rule begins with this bucket, or with less where another
    /// connection of the rule took more.
    pub fn leave<R: Wait>(self, rt: &R, bucket: Bucket) {
        let Pass {
            place: _,
            rule,
            bucket: _,
            entrance,
        } = self;
        entrance.give(rt, rule, &bucket);
    }
}
