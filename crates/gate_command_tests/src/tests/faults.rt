//! The lines of each fault, and the status that it ends with.

use super::*;
use gate_client::{AskFault, EnquireFault, FileFault, SettleFault};
use gate_command::arguments_of;
use program_options::VERSION;
use text_io::RunFault;

/// A run that did nothing.
const NOTHING: Script<'static> = Script {
    input: &[],
    failure: None,
    room: 0,
    tries: &[],
    now: None,
};

/// A fault is told by these lines, and ends with this status.
fn assert_told<R: Abort + AllocGlobal>(
    rt: &R,
    fault: SendFault,
    status: u8,
    printed: &str,
    told: &str,
) {
    let world = World::new(rt.alloc(), NOTHING);
    let gate = Gate { world: &world };
    let is_wanted = match tell_fault(&gate, fault) {
        Ok(found) => found == ExitCode::from(status),
        Err(_) => false,
    };
    assert_same_at(rt, is_wanted, true, told);
    assert_text(rt, &world.told, told);
    assert_text(rt, &world.printed, printed);
}

/// A fault is told by this line alone.
fn assert_line<R: Abort + AllocGlobal>(rt: &R, fault: SendFault, told: &str) {
    assert_told(rt, fault, 1, "", told);
}

/// What stands behind the line of each fault here.
fn detail(alloc: Global) -> Option<String> {
    String::from_str(alloc, "  behind it").ok()
}

#[test]
fn a_fault_has_the_name_of_its_part_and_its_own_text(rt: HostRuntime) {
    assert_line(&rt, RunFault::Memory.into(), "fault run 1 Memory\n");
    assert_line(&rt, SendFault::Run(RunFault::Read), "fault run 2 Read\n");
    assert_line(&rt, SendFault::Run(RunFault::Write), "fault run 3 Write\n");
    assert_line(&rt, SendFault::Clock, "fault clock\n");
    assert_line(&rt, SendFault::File(None), "fault file\n");
    assert_line(&rt, SendFault::BadLine(3, None), "fault line 3\n");
    assert_line(
        &rt,
        SendFault::GateFile(FileFault::Damaged(4), None),
        "fault gate-file 7 Damaged 4\n",
    );
}

#[test]
fn a_fault_with_more_to_tell_has_a_second_line(rt: HostRuntime) {
    let alloc = rt.alloc();
    assert_line(
        &rt,
        SendFault::File(detail(alloc)),
        "fault file\n  behind it\n",
    );
    assert_line(
        &rt,
        SendFault::BadLine(3, detail(alloc)),
        "fault line 3\n  behind it\n",
    );
    assert_line(
        &rt,
        SendFault::GateFile(FileFault::NotEmpty, detail(alloc)),
        "fault gate-file 4 NotEmpty\n  behind it\n",
    );
    assert_line(
        &rt,
        SendFault::Ask(AskFault::Full, detail(alloc)),
        "fault ask 3 Full\n  behind it\n",
    );
    assert_line(
        &rt,
        SendFault::Settle(SettleFault::Tries(3), detail(alloc)),
        "fault tries 3\n  behind it\n",
    );
    assert_line(
        &rt,
        SendFault::Enquire(EnquireFault::NotAllowed, detail(alloc)),
        "fault enquiry answer 7 NotAllowed\n  behind it\n",
    );
}

/// What a command line is answered by that asks for nothing to be sent.
fn answer_to(alloc: Global, words: &[&str]) -> Option<SendFault> {
    let error = arguments_of(alloc, words).err()?;
    Some(SendFault::from(error))
}

#[test]
fn help_and_the_version_are_printed_and_a_wrong_command_line_is_told(
    rt: HostRuntime,
) -> Result<(), Fail> {
    let help = answer_to(rt.alloc(), &["gate_send", "--help"]).ok_or("a help")?;
    let text = format!(in rt.alloc(); "{help}")?;
    assert_same_at(&rt, text.contains("Usage: gate_send "), true, "a help");
    assert_told(&rt, help, 0, text.as_str(), "");
    let version = answer_to(rt.alloc(), &["gate_send", "--version"]).ok_or("a version")?;
    let text = format!(in rt.alloc(); "gate_send {VERSION}\n")?;
    assert_told(&rt, version, 0, text.as_str(), "");
    let wrong = answer_to(rt.alloc(), &["gate_send", "--gate", "7"]).ok_or("a refusal")?;
    let told = format!(in rt.alloc(); "{wrong}")?;
    let missing = "error: the following required arguments were not provided:\n  --file <FILE>\n";
    assert_same_at(&rt, told.starts_with(missing), true, "a refusal");
    assert_told(&rt, wrong, 2, "", told.as_str());
    Ok(())
}
