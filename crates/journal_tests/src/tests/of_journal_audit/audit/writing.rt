//! Audits of which a write fails.

use super::*;
use test_streams::Taker;

/// A writer of so many bytes takes the beginning of the lines, and the audit fails where there are
/// more.
fn assert_begun<R: Abort + AllocGlobal>(rt: &R, whole: &str, left: usize) {
    let alloc = rt.alloc();
    let mut writer = Taker {
        taken: Vec::new(alloc),
        size: 7,
        left,
        fails: true,
        holds: false,
    };
    let ended = audit_journal(alloc, NameHashing::fixed(), None, SOUND, &FILE, &mut writer);
    let size = whole.len().min(left);
    assert_same_at(rt, writer.taken.as_slice(), &whole.as_bytes()[..size], left);
    if left < whole.len() {
        assert_same_at(rt, ended, Err(AuditFault::Write), left);
    } else {
        assert_same_at(rt, ended, Ok(Finding::Sound), left);
    }
}

#[test]
fn a_beginning_of_the_lines_stands_where_a_write_fails(rt: HostRuntime) -> Result<(), Fail> {
    let whole = format!(in rt.alloc(); "{LINES}sound\n")?;
    for left in [0, 10, 30, 1_000] {
        assert_begun(&rt, whole.as_str(), left);
    }
    Ok(())
}
