//! The lines of the input: each is read, kept as a touch, settled and told before the next is read,
//! or it is an enquiry, which is answered and told. A line that asks for neither is told, and the
//! next one is read.

use crate::arguments::Arguments;
use crate::fault::{Detail, SendFault};
use crate::file::{file_named, system_said};
use crate::station::TcpStation;
use gate_client::{
    AskFault, Asked, Client, GivenUpTold, HoldingTold, Line, Told, ask_after, asked_by,
    enquired_by, settle,
};
use oyster_account::Touch;
use std::alloc::Global;
use std::io::{self, ErrorKind};
use std::net::Net;
use std::time::{Clock, Duration};
use tap_disk::Disk;
use text_io::RunFault;

/// How a line is written.
const FORMS: &str = "write issue CARD, in CARD STATION, out CARD STATION or top-up CARD PENCE, \
with at SECONDS before it for a moment other than now, or enquire CARD";

/// The most of a bad line that is shown, in characters.
const SHOWN: usize = 40;

/// What came of the lines of an input that was read to its end.
#[derive(Clone, Copy, Debug, PartialEq, Eq)]
pub enum Sent {
    /// Each asked for a touch or a balance, and was answered.
    All,
    /// The others were: at least one asked for neither.
    ButBadLines,
}

/// A run over a gate's file.
struct Run<'a, R: Net, D: Disk> {
    rt: &'a R,
    asked: &'a Arguments<'a>,
    client: &'a mut Client<D>,
    station: TcpStation<'a, R>,
    /// The line to the station, where the last touch was settled over it.
    line: Option<Line<R::Stream, R::Stream>>,
}

/// By hand, so that it is one call wherever one is dropped.
impl<R: Net, D: Disk> Drop for Run<'_, R, D> {
    fn drop(self) {
        let Run {
            rt: _,
            asked: _,
            client: _,
            station: _,
            line: _,
        } = self;
    }
}

/// Settles the touch that waits, where one does, and then asks for, settles and tells what each
/// line of the input asks for, unless what waits was to be sent alone, or to be given up. It waits
/// for the station, and between tries.
///
/// `Ask` comes where a touch can't be stored: it isn't sent. `Settle` comes after the last try, or
/// at a fault that repeats don't change: the touch waits on in the gate's file. A line that asks
/// for nothing is told on standard error, and the next one is read.
pub fn send_lines<'a, R: AllocGlobal + Input + Print + Eprint + Net + Clock, D: Disk>(
    rt: &'a R,
    client: &'a mut Client<D>,
    asked: &'a Arguments<'a>,
) -> Result<Sent, SendFault> {
    let timeout = Duration::from_millis(u64::from(asked.timeout));
    let station = TcpStation::new(rt, asked.addresses.as_slice(), timeout, asked.pause);
    let mut run = Run {
        rt,
        asked,
        client,
        station,
        line: None,
    };
    if let Some(touch) = run.client.waiting() {
        if asked.gives_up {
            run.settle_or_give_up(&touch)?;
        } else {
            run.settle(&touch)?;
        }
    }
    if asked.resends || asked.gives_up {
        Ok(Sent::All)
    } else {
        run.lines()
    }
}

impl<R: AllocGlobal + Input + Print + Eprint + Net + Clock, D: Disk> Run<'_, R, D> {
    /// Reads the input line by line to its end, and sends what each asks for.
    fn lines(&mut self) -> Result<Sent, SendFault> {
        let mut sent = Sent::All;
        let mut line = String::new(self.rt.alloc());
        for number in 1..u64::MAX {
            match self.next_line(number, &mut line) {
                Ok(true) => {}
                Ok(false) => return Ok(sent),
                Err(fault) => {
                    if !fault.is_bad_line() {
                        return Err(fault);
                    }
                    // Where it can't be told, the status says it.
                    let _ = fault.tell(self.rt);
                    sent = Sent::ButBadLines;
                }
            }
        }
        Ok(sent)
    }

    /// Reads the next line, and sends what it asks for. It is false at the input's end.
    fn next_line(&mut self, number: u64, line: &mut String) -> Result<bool, SendFault> {
        line.clear();
        match self.rt.read_line(line) {
            Ok(0) => Ok(false),
            Ok(_) => {
                self.line(number, line.as_str())?;
                Ok(true)
            }
            Err(error) => Err(read_fault(&error, number)),
        }
    }

    /// Sends what a line asks for.
    fn line(&mut self, number: u64, line: &str) -> Result<(), SendFault> {
        let line = line.strip_suffix('\n').unwrap_or(line);
        // As other systems end a line.
        let line = line.strip_suffix('\r').unwrap_or(line);
        if let Some(card) = enquired_by(line) {
            return self.enquire(card);
        }
        let now = self.now()?;
        let Some(asked) = asked_by(line, now) else {
            return Err(bad_line(self.rt.alloc(), number, line));
        };
        let touch = self.ask(&asked)?;
        self.settle(&touch)
    }

    /// The moment, in seconds since 1970-01-01 00:00:00 UTC.
    fn now(&self) -> Result<u32, SendFault> {
        let Ok(now) = self.rt.since_1970() else {
            return Err(SendFault::Clock);
        };
        u32::try_from(now.as_secs()).map_err(|_| SendFault::Clock)
    }

    /// Keeps the touch that is asked for.
    fn ask(&mut self, asked: &Asked) -> Result<Touch, SendFault> {
        match self.client.ask(asked.card, asked.act) {
            Ok(touch) => Ok(touch),
            Err(fault) => Err(SendFault::Ask(fault, self.ask_detail(fault))),
        }
    }

    /// What stands behind the line of a touch that isn't kept.
    fn ask_detail(&self, fault: AskFault) -> Detail {
        let (alloc, path) = (self.rt.alloc(), self.asked.file);
        match fault {
            AskFault::Device => system_said(alloc, path, self.client.error()),
            _ => file_named(alloc, path),
        }
    }

    /// Settles the touch that waits, and tells its reply.
    fn settle(&mut self, touch: &Touch) -> Result<(), SendFault> {
        if self.client.waiting().is_none() {
            return Ok(());
        }
        let tries = self.asked.tries.unwrap_or(u32::MAX);
        let line = self.line.take();
        match settle(&mut *self.client, &mut self.station, line, tries) {
            Ok((reply, line)) => {
                self.line = Some(line);
                self.station.rest();
                let told = Told {
                    touch: *touch,
                    reply,
                };
                self.rt
                    .println(&told)
                    .map_err(|_| SendFault::Run(RunFault::Write))
            }
            Err(fault) => Err(SendFault::Settle(fault, self.waits(touch))),
        }
    }

    /// Settles the touch that waits, and tells its reply; or gives it up, and tells that, where the
    /// station answers by a fault that repeats don't change.
    fn settle_or_give_up(&mut self, touch: &Touch) -> Result<(), SendFault> {
        match self.settle(touch) {
            Err(SendFault::Settle(fault, detail)) => {
                if fault.is_answer() {
                    self.give_up(touch)
                } else {
                    Err(SendFault::Settle(fault, detail))
                }
            }
            settled => settled,
        }
    }

    /// Gives up the touch that waits, and tells it.
    fn give_up(&mut self, touch: &Touch) -> Result<(), SendFault> {
        if self.client.waiting().is_none() {
            return Ok(());
        }
        match self.client.give_up() {
            Ok(()) => {
                let told = GivenUpTold { touch: *touch };
                self.rt
                    .println(&told)
                    .map_err(|_| SendFault::Run(RunFault::Write))
            }
            Err(fault) => Err(SendFault::Ask(fault, self.ask_detail(fault))),
        }
    }

    /// Asks what a card holds, and tells it.
    fn enquire(&mut self, card: u32) -> Result<(), SendFault> {
        let tries = self.asked.tries.unwrap_or(u32::MAX);
        let line = self.line.take();
        match ask_after(card, &mut self.station, line, tries) {
            Ok((holding, line)) => {
                self.line = Some(line);
                self.station.rest();
                let told = HoldingTold {
                    gate: self.asked.gate,
                    card,
                    holding,
                };
                self.rt
                    .println(&told)
                    .map_err(|_| SendFault::Run(RunFault::Write))
            }
            Err(fault) => {
                let detail = format!(in self.rt.alloc(); "  card {card}").ok();
                Err(SendFault::Enquire(fault, detail))
            }
        }
    }

    /// What stands behind the line of a touch that isn't settled.
    fn waits(&self, touch: &Touch) -> Detail {
        let (alloc, path) = (self.rt.alloc(), self.asked.file);
        let (gate, number) = (touch.gate, touch.number);
        format!(in alloc; "  {path}: gate {gate} number {number} waits; settle it by --resend").ok()
    }
}

/// The fault of a line that isn't read.
fn read_fault(error: &io::Error, number: u64) -> SendFault {
    match error.kind() {
        ErrorKind::InvalidData => SendFault::BadLine(number, None),
        ErrorKind::OutOfMemory => SendFault::Run(RunFault::Memory),
        _ => SendFault::Run(RunFault::Read),
    }
}

/// The fault of a line that asks for nothing.
fn bad_line(alloc: Global, number: u64, line: &str) -> SendFault {
    let shown = line.get(..SHOWN).unwrap_or(line);
    SendFault::BadLine(number, format!(in alloc; "  {shown:?}: {FORMS}").ok())
}
