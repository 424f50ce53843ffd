//! The lines that are told of a sound journal.

ghost use Rattle.std.specs.Prelude.{◌≡◌, ◌≤◌, ◌++◌, length, string_bytes, IfOk, OnOk, Some};
ghost use Rattle.journal_audit.specs.AuditLines.{header_told, gate_header_told, counts_told};
ghost use Rattle.journal_audit.specs.AuditLines.{text_of_contents, behind_text, seal_text};
ghost use Rattle.journal_audit.specs.AuditLines.{seals_text, version_number};

use crate::audit::finding::{finding_of, last_line};
use crate::audit::seal::Seals;
use command_line::Sealed;
use std::alloc::{AllocError, Global};
use tap_journal::{Contents, Format};

/// All lines: those of the header, what was found behind it, the open slots behind the end, the
/// lines of the revisions, the seals, and that it is sound, with whether more is to be looked at.
pub(crate) fn text_of(
    alloc: Global,
    header: &str,
    found: &Contents,
    revisions: &[u8],
    told: &Seals,
) -> Result<Vec<u8>, AllocError>
    requires { length found.now.touches.items ≤ found.now.capacity }
    ensures { IfOk result (λ text. text.items
        ≡ text_of_contents header.now found.now revisions.now told.now) }
{
    let counts = count_lines(alloc, found)?;
    let behind = behind_line(alloc, found.behind)?;
    let mut text = Vec::new(alloc);
    text.extend_from_slice(header.as_bytes())?;
    text.extend_from_slice(counts.as_bytes())?;
    text.extend_from_slice(behind.as_bytes())?;
    text.extend_from_slice(revisions)?;
    append_seals(&mut text, alloc, told)?;
    text.extend_from_slice(last_line(finding_of(found.behind)).as_bytes())?;
    Ok(text)
}

/// The lines of a gate's file's format and header.
pub(crate) fn gate_header_lines(
    alloc: Global,
    gate: u16,
    found: &Contents,
) -> Result<String, AllocError>
    ensures { IfOk result (λ text. string_bytes text ≡ gate_header_told gate found.now) }
{
    let version = version_of(found.format);
    let capacity = found.capacity;
    format!(in alloc; "version {version}\ncapacity {capacity}\ngate {gate}\n")
}

/// The lines of the format and the header.
pub(crate) fn header_lines(alloc: Global, found: &Contents) -> Result<String, AllocError>
    ensures { IfOk result (λ text. string_bytes text ≡ header_told found.now) }
{
    let version = version_of(found.format);
    let capacity = found.capacity;
    let cards = found.cards;
    let digest = hex::encode(alloc, found.digest)?;
    format!(in alloc; "version {version}\ncapacity {capacity}\ncards {cards}\ndigest {digest}\n")
}

/// The lines of how many touches the journal has and can still take, and of how many bytes stand
/// behind them.
fn count_lines(alloc: Global, found: &Contents) -> Result<String, AllocError>
    requires { length found.now.touches.items ≤ found.now.capacity }
    ensures { IfOk result (λ text. string_bytes text ≡ counts_told found.now) }
{
    let touches = found.touches.len();
    let room = found.capacity as usize - touches;
    let trailing = found.trailing;
    format!(in alloc; "touches {touches}\nroom {room}\ntrailing {trailing}\n")
}

/// The number of a format's version.
fn version_of(format: Format) -> u32
    ensures { result ≡ version_number format }
{
    match format {
        Format::First => 1,
        Format::Second => 2,
    }
}

/// The line of open slots behind the end, where there are some.
fn behind_line(alloc: Global, behind: u32) -> Result<String, AllocError>
    ensures { IfOk result (λ text. string_bytes text ≡ behind_text behind) }
{
    if behind == 0 {
        Ok(String::new(alloc))
    } else {
        format!(in alloc; "behind {behind}\n")
    }
}

/// Adds the lines of the seals: the one that the journal was held against, and the one that was
/// made.
fn append_seals(text: &mut Vec<u8>, alloc: Global, told: &Seals) -> Result<(), AllocError>
    ensures { OnOk result (text.new.items ≡ text.old.items ++ seals_text told.now) }
{
    let kept = seal_line(alloc, &told.kept)?;
    let made = seal_line(alloc, &told.made)?;
    text.extend_from_slice(kept.as_bytes())?;
    text.extend_from_slice(made.as_bytes())
}

/// The line of a seal, where there is one.
fn seal_line(alloc: Global, told: &Option<Sealed>) -> Result<String, AllocError>
    ensures { IfOk result (λ text. string_bytes text ≡ seal_text told.now) }
{
    match told {
        Some(sealed) => line_of_seal(alloc, sealed),
        None => Ok(String::new(alloc)),
    }
}

/// The line of a seal.
fn line_of_seal(alloc: Global, sealed: &Sealed) -> Result<String, AllocError>
    ensures { IfOk result (λ text. string_bytes text ≡ seal_text (Some sealed.now)) }
{
    let touches = sealed.touches;
    let digest = hex::encode(alloc, sealed.digest)?;
    format!(in alloc; "sealed {touches} {digest}\n")
}
