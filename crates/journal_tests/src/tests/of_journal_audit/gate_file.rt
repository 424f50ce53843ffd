//! What no clause says of audits of gates' files: worked files with their lines and seals, and what
//! is told of each other one. The digests are those of Python's hashlib.

use super::asking;
use crate::tests::{assert_same_at, with};
use command_line::Sealed;
use journal_audit::{
    Asked, AuditFault, Finding, GateFault, JournalHeaderFault, SealFault, audit_gate_file,
};
use std::alloc::Global;
use std::process::Abort;
use std::test::Fail;

/// The file of gate 7 with room for 5 touches: the header, the issue of card 1 and its top-up by
/// 2000 pence, and the closed mark of the third slot (JOURNAL.md, "A gate's file").
const FILE: [u8; 193] = *b"\xa5OYSTERJ2\x00\x00\x00\x05\x00\x00\x00\x01\
    touches of one gate, by number\x00\x07\
    \x00\x00\x00\x00\x00\x00\x00\x00\x00\x00\x00\x00\x00\x00\x00\
    \xa5\x04\x00\x07\x00\x00\x00\x01\x00\x00\x00\x01\x67\x7b\x8b\x28\
    \x00\x00\x00\x00\x00\x00\x00\x00\x00\x00\x00\x00\x00\x00\x00\x00\
    \x00\x00\x00\x00\x00\x00\x00\x00\x00\x00\x00\x00\x00\x00\x00\x00\
    \x00\x00\x00\x00\x00\x00\x00\x00\x00\x00\x00\x00\x00\x00\x00\x00\
    \xa5\x03\x00\x07\x00\x00\x00\x02\x00\x00\x00\x01\x00\x00\x07\xd0\x67\x7b\x8c\x54\
    \x00\x00\x00\x00\x00\x00\x00\x00\x00\x00\x00\x00\
    \x00\x00\x00\x00\x00\x00\x00\x00\x00\x00\x00\x00\x00\x00\x00\x00\
    \x00\x00\x00\x00\x00\x00\x00\x00\x00\x00\x00\x00\x00\x00\x00\x00\
    \x00";

/// The lines of that file but the last.
const LINES: &str = "version 2\ncapacity 5\ngate 7\ntouches 2\nroom 3\ntrailing 1\n";

/// The digest of its header and both slots.
const DIGEST: &str = "51d031b9f192a850022bcfb29f7bb425368c9be4be427696f5c3f410ae1ca079";

/// What is written of some bytes as the file of a gate, and how the audit ends.
fn audited(
    alloc: Global,
    gate: u16,
    asked: Asked,
    bytes: &[u8],
) -> Result<(String, Result<Finding, AuditFault>), Fail> {
    let mut written = Vec::new(alloc);
    let ended = audit_gate_file(alloc, gate, asked, bytes, &mut written);
    let text = String::from_utf8(written).ok().ok_or("a text")?;
    Ok((text, ended))
}

/// An audit of some bytes as the file of gate 7 ends so, and its lines are these.
fn assert_told<R: Abort + AllocGlobal>(
    rt: &R,
    asked: Asked,
    bytes: &[u8],
    want: Result<Finding, AuditFault>,
    lines: &str,
) -> Result<(), Fail> {
    let (text, ended) = audited(rt.alloc(), 7, asked, bytes)?;
    assert_same_at(rt, ended, want, lines);
    assert_same_at(rt, text.as_str(), lines, 7);
    Ok(())
}

#[test]
fn a_gates_file_is_told_in_lines(rt: HostRuntime) -> Result<(), Fail> {
    let sound = format!(in rt.alloc(); "{LINES}sound\n")?;
    let asked = [asking(None, None), asking(Some(5), Some(1))];
    for asked in asked {
        assert_told(&rt, asked, &FILE, Ok(Finding::Sound), sound.as_str())?;
    }
    let (text, ended) = audited(rt.alloc(), 7, asking(None, None), &with(FILE, &[(64, 0)]))?;
    assert_same_at(&rt, ended, Ok(Finding::Sound), 64);
    let last = "touches 0\nroom 5\ntrailing 129\nbehind 1\nsound\n";
    assert_same_at(&rt, text.ends_with(last), true, 64);
    Ok(())
}

#[test]
fn what_is_no_file_of_the_gate_is_told_by_its_cause(rt: HostRuntime) -> Result<(), Fail> {
    let rows: [(&[(usize, u8)], GateFault); 11] = [
        (&[(0, 0)], GateFault::NoFile),
        (&[(8, b'9')], GateFault::AnotherFile),
        (&[(8, b'1')], GateFault::AnotherFile),
        (&[(48, 8)], GateFault::AnotherFile),
        (&[(17, b'T')], GateFault::AnotherFile),
        (&[(16, 2), (129, 9)], GateFault::AnotherFile),
        (&[(12, 0), (129, 9)], GateFault::AnotherFile),
        (&[(129, 9), (67, 8)], GateFault::Damaged(1)),
        (&[(192, 0xa5)], GateFault::Damaged(2)),
        (&[(67, 8), (135, 9)], GateFault::Foreign(0)),
        (&[(135, 3)], GateFault::Foreign(1)),
    ];
    for (changes, want) in rows {
        let fault = Err(AuditFault::Gate(want));
        assert_told(&rt, asking(Some(9), None), &with(FILE, changes), fault, "")?;
    }
    let (text, ended) = audited(rt.alloc(), 8, asking(None, None), &FILE)?;
    assert_same_at(&rt, ended, Err(AuditFault::Gate(GateFault::AnotherFile)), 8);
    assert_same_at(&rt, text.as_str(), "", 8);
    Ok(())
}

#[test]
fn a_gates_file_is_held_against_what_is_expected(rt: HostRuntime) -> Result<(), Fail> {
    let capacity = JournalHeaderFault::Capacity {
        says: 5,
        expected: 9,
    };
    let fault = Err(AuditFault::Header(capacity));
    assert_told(&rt, asking(Some(9), Some(2)), &FILE, fault, "")?;
    let cards = JournalHeaderFault::Cards {
        says: 1,
        expected: 2,
    };
    let fault = Err(AuditFault::Header(cards));
    assert_told(&rt, asking(Some(5), Some(2)), &FILE, fault, "")
}

#[test]
fn a_gates_file_is_sealed_and_held_against_its_seal(rt: HostRuntime) -> Result<(), Fail> {
    let digest = <[u8; 32] as hex::FromHex>::from_hex(DIGEST)
        .ok()
        .ok_or("a digest")?;
    let mut asked = asking(None, None);
    asked.seal.made = true;
    let lines = format!(in rt.alloc(); "{LINES}sealed 2 {DIGEST}\nsound\n")?;
    assert_told(&rt, asked, &FILE, Ok(Finding::Sound), lines.as_str())?;
    asked.seal.made = false;
    asked.seal.kept = Some(Sealed { touches: 2, digest });
    assert_told(&rt, asked, &FILE, Ok(Finding::Sound), lines.as_str())?;
    let changed = Err(AuditFault::Seal(SealFault::Changed));
    assert_told(&rt, asked, &with(FILE, &[(191, 1)]), changed, "")?;
    let shorter = SealFault::Shorter {
        touches: 1,
        sealed: 2,
    };
    let fault = Err(AuditFault::Seal(shorter));
    assert_told(&rt, asked, &with(FILE, &[(128, 0)]), fault, "")
}
