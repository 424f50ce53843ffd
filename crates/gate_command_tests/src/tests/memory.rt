//! A run for which memory is refused.

use super::*;
use gate_client::{AskFault, SettleFault};
use gate_command::arguments_of;
use text_io::RunFault;

/// How often a run that was refused memory is begun again.
const TRIES: u32 = 10;

/// What is asked for: one try of each line.
const WORDS: [&str; 8] = [
    "gate_send",
    "--gate",
    "7",
    "--file",
    FILE,
    "--tries",
    "1",
    STATION,
];

/// Whether a fault can come of memory that was refused. What is sent and printed is kept in memory
/// here, and the disk is.
fn is_of_memory(fault: &SendFault) -> bool {
    match fault {
        SendFault::Run(RunFault::Memory) => true,
        SendFault::Run(RunFault::Write) => true,
        SendFault::Ask(AskFault::Device, _) => true,
        SendFault::Settle(SettleFault::Tries(1), _) => true,
        _ => false,
    }
}

/// What comes of a run of a new client on the issue's line.
fn sent(
    alloc: Global,
    asked: &Arguments<'_>,
    world: &World<'_>,
) -> Result<Option<Sent>, SendFault> {
    let Some(mut client) = new_client(alloc, 3) else {
        return Ok(None);
    };
    let gate = Gate { world };
    Ok(Some(send_lines(&gate, &mut client, asked)?))
}

/// What comes of such a run, which the words ask for.
fn sent_by_words(alloc: Global, world: &World<'_>) -> Result<Option<Sent>, SendFault> {
    let asked = arguments_of(alloc, &WORDS)?;
    sent(alloc, &asked, world)
}

/// Prints the issue's reply. `None` if memory was refused.
fn attempt<R: Abort + AllocGlobal>(rt: &R) -> Option<()> {
    let input = [ISSUE_LINE];
    let tries = [Try::Gives(ISSUED)];
    let world = World::new(rt.alloc(), script(&input, &tries));
    match sent_by_words(rt.alloc(), &world) {
        Ok(ended) => {
            assert_same(rt, ended?, Sent::All);
            assert_text(rt, &world.printed, ISSUED_LINE);
            Some(())
        }
        Err(fault) => {
            assert_same(rt, is_of_memory(&fault), true);
            None
        }
    }
}

#[test]
fn a_run_that_was_refused_memory_is_begun_again(rt: HostRuntime) -> Result<(), Fail> {
    for _ in 0..TRIES {
        if attempt(&rt).is_some() {
            return Ok(());
        }
    }
    Err("memory is refused again and again".into())
}
