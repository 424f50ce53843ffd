mod buckets;
mod places;
mod rules;

use door_clerk::Bucket;
use door_file::Door;
use station_door::{Pass, ShutOut, StationDoor};
use std::alloc::Global;
use std::fmt::Debug;
use std::process::Abort;
use std::sync::Wait;

/// A gate with one connection, a machine with any number, and two connections for all others. The
/// gate and the others send two touches at once, and one a second for long.
const THREE: &[u8] = b"[[rule]]\nname = \"gate-7\"\ngates = [7]\nkinds = [\"in\", \"out\"]\n\
    rate = 1\nburst = 2\nconnections = 1\n\
    [[rule]]\nname = \"*\"\ngates = [[100, 120]]\nkinds = [\"in\", \"enquiry\"]\n\
    rate = 1\nburst = 2\nconnections = 2\n\
    [[rule]]\nname = \"office\"\nkinds = [\"enquiry\"]\n";

/// A gate with one connection, and no rule for others.
const ALONE: &[u8] = b"[[rule]]\nname = \"gate-7\"\ngates = [7]\nkinds = [\"in\"]\n\
    connections = 1\n";

/// The name of the gate.
const GATE: Option<&str> = Some("gate-7");

/// A name without a rule of its own.
const STRANGER: Option<&str> = Some("gate-8");

/// A bucket with two touches in it, which nobody has used.
const FULL: Bucket = Bucket {
    level: 2_000,
    ticks: 0,
};

/// A bucket that was emptied at 5000 ticks.
const SPENT: Bucket = Bucket {
    level: 0,
    ticks: 5_000,
};

/// These are equal.
fn assert_same<T: PartialEq + Debug + Copy>(rt: &impl Abort, found: T, want: T) {
    assert_eq!(rt; found, want);
}

/// These are equal, in this case.
fn assert_same_at<T: PartialEq + Debug + Copy, C: Debug + Copy>(
    rt: &impl Abort,
    found: T,
    want: T,
    at: C,
) {
    assert_eq!(rt; found, want, "{at:?}");
}

/// A station's door by this file, or none where memory is refused.
fn opened(alloc: Global, file: &[u8]) -> Option<StationDoor> {
    let door = Door::read_bytes(alloc, file).ok()?;
    StationDoor::new(alloc, door).ok()
}

/// A station's door by this file, made again where memory was refused.
fn station(alloc: Global, file: &[u8]) -> Option<StationDoor> {
    match opened(alloc, file) {
        Some(station) => Some(station),
        None => opened(alloc, file),
    }
}

/// By which rule's place a connection of this name enters, or why it doesn't. It leaves at once.
fn visit<R: Wait>(rt: &R, station: &StationDoor, name: Option<&str>) -> Result<usize, ShutOut> {
    let pass = station.enter(rt, name)?;
    let (place, bucket) = (pass.place, pass.bucket);
    pass.leave(rt, bucket);
    Ok(place)
}

/// The bucket with which a connection of this name begins, if it gets a place. It leaves this one.
fn pass_on<R: Wait>(
    rt: &R,
    station: &StationDoor,
    name: Option<&str>,
    left: Bucket,
) -> Result<Bucket, ShutOut> {
    let pass = station.enter(rt, name)?;
    let bucket = pass.bucket;
    pass.leave(rt, left);
    Ok(bucket)
}

/// The pass of a connection of this name, which has to get one.
fn enter<'a, R: Wait + Abort>(rt: &R, station: &'a StationDoor, name: Option<&str>) -> Pass<'a> {
    station.enter(rt, name).expect(rt, "a place")
}
