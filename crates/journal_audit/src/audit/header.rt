//! What is asked of a journal beside that it is sound, and whether its header says it.

ghost use Rattle.std.specs.Prelude.{IfErr, IfNone, IfSome, OnOk};
ghost use Rattle.journal_audit.specs.Expected.{IsAsExpected, IsOther, IsExpected, HasHeaderCause};

use crate::fault::JournalHeaderFault;
use command_line::Seal;

/// What is asked of a journal beside that it is sound.
#[derive(Clone, Copy, Debug, PartialEq, Eq)]
pub struct Asked {
    /// The capacity that its header has to say, where one is expected.
    pub capacity: Option<u32>,
    /// The number of cards that its header has to say, where one is expected.
    pub cards: Option<u32>,
    /// The seal.
    pub seal: Seal,
}

/// Whether a header of this capacity and number of cards says what is expected: the capacity first.
pub(crate) fn check_header(
    asked: &Asked,
    capacity: u32,
    cards: u32,
) -> Result<(), JournalHeaderFault>
    ensures ok { OnOk result (IsExpected asked.now capacity cards) }
    ensures fault { IfErr result (HasHeaderCause asked.now capacity cards) }
{
    if let Some(expected) = other_than(asked.capacity, capacity) {
        return Err(JournalHeaderFault::Capacity {
            says: capacity,
            expected,
        });
    }
    if let Some(expected) = other_than(asked.cards, cards) {
        return Err(JournalHeaderFault::Cards {
            says: cards,
            expected,
        });
    }
    Ok(())
}

/// The number that is expected, where that is another one than this.
fn other_than(expected: Option<u32>, says: u32) -> Option<u32>
    ensures other { IfSome result (IsOther expected says) }
    ensures same { IfNone result (IsAsExpected expected says) }
{
    match expected {
        Some(number) if number != says => Some(number),
        _ => None,
    }
}
