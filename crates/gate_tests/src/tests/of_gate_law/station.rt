//! A station by a script: what a station does of a card's first morning, and no more.
use super::*;

/// A station that knows the rows, each touch with the reply that PROTOCOL.md has for it. It
/// enters a row's touch behind those before it, repeats its reply, and answers whatever else by a
/// fault.
#[derive(Drop)]
pub struct Script {
    /// How many of the rows were entered.
    pub entered: usize,
    /// How many touches were answered by a reply that stood there.
    pub repeated: usize,
    /// It answers every touch by this fault.
    pub fault: Option<FaultCode>,
}

impl Script {
    /// A station with no touch.
    pub fn new() -> Script {
        Script {
            entered: 0,
            repeated: 0,
            fault: None,
        }
    }

    /// The reply to a touch, or why there is none.
    fn judge(&mut self, touch: &Touch) -> Result<Reply, FaultCode> {
        if let Some(code) = self.fault {
            return Err(code);
        }
        let place = (touch.number as usize).saturating_sub(1);
        let row = ROWS.get(place).ok_or(FaultCode::Full)?;
        if row.touch != *touch {
            return Err(FaultCode::Conflict);
        }
        if place < self.entered {
            self.repeated = self.repeated.saturating_add(1);
        } else {
            self.entered = self.entered.saturating_add(1);
        }
        Ok(row.reply)
    }
}

impl Clerk for Script {
    ghost gives = { λ _ _ _ _. Unit {0} };

    fn submit<R: Wait>(&mut self, _rt: &R, touch: Touch) -> Answer {
        match self.judge(&touch) {
            Ok(reply) => Answer::reply(reply, &touch),
            Err(code) => Answer::fault(code, &touch),
        }
    }

    fn enquire(&mut self, _card: u32) -> Answer {
        Answer::unnamed_fault(FaultCode::Halted)
    }
}
