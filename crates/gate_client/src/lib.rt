//! A gate's client: what a gate keeps of a touch before it sends it, and what its program reads,
//! sends and tells. Its main promises are those of `Client::ask`: after Ok every crash leaves the
//! touch in the gate's file, under the next number, and no touch is handed out that isn't kept; and
//! of `settle`: what it answers was read as the reply to the touch that waits, behind its frame.
#![tactic(auto)]

mod asking;
mod attempt;
mod client;
mod enquiry;
mod enquiry_line;
mod fault;
mod file;
mod laws;
mod line;
mod settling;
mod told;

pub use asking::{Asked, asked_by};
pub use attempt::{TryFault, exchange};
pub use client::Client;
pub use enquiry::{EnquireFault, Holding, HoldingTold, ask_after, enquire, enquired_by};
pub use fault::{AskFault, ClientFault, FileFault, HearFault, LineFault};
pub use file::{CARDS, TAG, first_foreign, tag_of};
pub use laws::{one_file, one_number};
pub use settling::{Line, SettleFault, Station, settle};
pub use told::{GivenUpTold, Told};
