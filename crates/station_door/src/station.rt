//! The door of a station, as its lines share it.
ghost use Rattle.std.specs.Prelude.{◌≡◌, ◌↔◌, map, None, Some, IfOk, IfErr, length, option_map};
ghost use Rattle.std.specs.Prelude.{◌<◌, slice_get, vec_len};
ghost use Rattle.door_file.specs.Rule.{entry_of, rule_for};
ghost use Rattle.door_file.specs.Door.{rules_of};
ghost use Rattle.station_door.specs.Entrances.{AreNumbered};
ghost use Rattle.station_door.specs.Entering.{IsFullAt, IsRuleFor, IsShutOutFor};

use crate::entrance::{Entrance, entrances_of};
use crate::pass::Pass;
use crate::shut_out::ShutOut;
use door_file::{Door, NamedRule};
use std::alloc::{AllocError, Global};
use std::sync::Wait;

/// The door of a station, as its lines share it: its rules, and for each rule how many of its
/// connections are open, and the bucket with which the next one begins.
///
/// Any thread may use it through a reference. Each rule has a lock of its own.
#[derive(Drop)]
pub struct StationDoor {
    door: Door,
    /// An entrance for each rule, in the order of the rules.
    entrances: Vec<Entrance>,
    ghost each: { vec_len entrances ≡ length (rules_of door) },
    ghost numbered: { AreNumbered entrances.items },
}

impl StationDoor {
    ghost use Rattle.station_door.specs.Station.{rules_in};

    /// A door that nobody has passed: each rule's bucket is full, and no connection is open.
    ///
    /// It allocates a list with an element for each rule, and nothing is allocated after it. Where
    /// that is refused the door is gone.
    pub fn new(alloc: Global, door: Door) -> Result<StationDoor, AllocError>
        ensures { IfOk result (λ station. rules_in station ≡ rules_of door) }
    {
        let entrances = entrances_of(alloc, door.rules())?;
        Ok(StationDoor { door, entrances })
    }

    /// The rules, in the order of the door's file.
    pub fn rules(&self) -> &[NamedRule]
        ensures { map entry_of result.now ≡ rules_in self.now }
    {
        self.door.rules()
    }

    /// Takes a place for a connection of this name, by the rule of its name, else by that of `*`.
    /// A connection without a certificate has no name. It waits for the rule's lock.
    ///
    /// `NoRule` is returned exactly where the door has neither rule. `Connections` is returned
    /// where all connections of the rule are open: never for a rule without a limit. After either
    /// fault all is as before. Nothing is allocated.
    pub fn enter<R: Wait>(&self, rt: &R, name: Option<&str>) -> Result<Pass<'_>, ShutOut>
        ensures ok { IfOk result (λ pass. IsRuleFor (option_map (λ name. name.now) name.entry)
            (rules_in self.now) pass.place (entry_of pass.rule.now)) }
        ensures err { IfErr result (IsShutOutFor (option_map (λ name. name.now) name.entry)
            (rules_in self.now)) }
        ensures no_rule { (result ≡ Err ShutOut.NoRule)
            ↔ (rule_for (option_map (λ name. name.now) name.entry) (rules_in self.now) ≡ None) }
    {
        let Some(place) = self.door.place_for(name) else {
            return Err(ShutOut::NoRule);
        };
        self.enter_at(rt, place)
    }

    /// Takes a place by the rule at this place of the list.
    fn enter_at<R: Wait>(&self, rt: &R, place: usize) -> Result<Pass<'_>, ShutOut>
        requires { place < length (rules_in self.now) }
        ensures ok { IfOk result (λ pass. (pass.place ≡ place)
            × (slice_get (rules_in self.now) place ≡ Some (entry_of pass.rule.now))) }
        ensures err { IfErr result (IsFullAt (rules_in self.now) place) }
    {
        let rule = &self.door.rules()[place];
        let entrance = &self.entrances[place];
        match entrance.take(rt, rule) {
            Some(bucket) => Ok(Pass {
                place,
                rule,
                bucket,
                entrance,
            }),
            None => Err(ShutOut::Connections { place }),
        }
    }
}
