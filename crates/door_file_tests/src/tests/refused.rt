//! Readings that are refused memory. A script of `scripts/tests` refuses each allocation of these
//! tests in turn: the call that met it is made again, and has to answer as with ample memory.
use super::doors::{DOOR, assert_door};
use super::{assert_same, read_again};
use door_file::DoorFault;
use std::test::Fail;

#[test]
fn a_door_is_read_again_where_memory_was_refused(rt: HostRuntime) -> Result<(), Fail> {
    let door = read_again(rt.alloc(), DOOR)?;
    assert_door(&rt, &door)
}

#[test]
fn an_unknown_key_is_named_where_memory_was_refused(rt: HostRuntime) -> Result<(), Fail> {
    let text = "rule = [{name = 'b', kinds = ['enquiry'], a = 1}]";
    let Some(DoorFault::UnknownKey(name, rule)) = read_again(rt.alloc(), text).err() else {
        return Err(Fail::from("another fault"));
    };
    assert_same(&rt, name.as_str(), "a");
    assert_same(&rt, rule, 1);
    Ok(())
}
