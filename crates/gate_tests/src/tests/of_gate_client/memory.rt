//! Calls that are refused memory.
use super::*;

/// How often a call that was refused is made again.
const TRIES: u32 = 10;

/// The disk of a file with the first row's touch. There is none where memory was refused: a disk in
/// memory fails then.
fn written(rt: &impl Abort, alloc: Global) -> Option<MemoryDisk> {
    let disk = MemoryDisk::new(alloc).ok()?;
    match Client::create(disk, GATE, 3) {
        Ok(mut client) => match client.ask(1, ROWS[0].touch.act) {
            Ok(touch) => {
                assert_same(rt, touch, ROWS[0].touch);
                Some(client.close())
            }
            Err(fault) => {
                assert_same(rt, fault, AskFault::Device);
                None
            }
        },
        Err(fault) => {
            assert_same(rt, fault.cause, FileFault::Device);
            None
        }
    }
}

/// Such a disk, made again where memory was refused.
fn written_again(rt: &impl Abort, alloc: Global) -> MemoryDisk {
    for _ in 0..TRIES {
        if let Some(disk) = written(rt, alloc) {
            return disk;
        }
    }
    panic!(rt; "memory is refused again and again")
}

#[test]
fn a_refused_allocation_is_memory_or_device(rt: HostRuntime) {
    let mut disk = written_again(&rt, rt.alloc());
    for _ in 0..TRIES {
        let (handed_back, found) = opened(rt.alloc(), disk, GATE);
        disk = handed_back;
        match found {
            Ok(number) => {
                assert_same(&rt, number, 1);
                return;
            }
            Err(fault) => assert_same(
                &rt,
                matches!(fault, FileFault::Memory | FileFault::Device),
                true,
            ),
        }
    }
    panic!(&rt; "memory is refused again and again")
}
