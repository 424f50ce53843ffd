//! What is told of a fare table: its report or its first fault, what a journey costs by it, and
//! what there is to note of its text.
//!
//! `report_table` carries the report of a file's bytes, which `check_file` writes with the notes of
//! `look_over`; `check_table` is the same over any reader and writer. `cost_of` says what a journey
//! costs by a table, and `changes_of` what one table says otherwise than another. A text that is
//! looked over needn't be a valid table.
#![tactic(auto)]

mod above;
mod changes;
mod check;
mod comparison;
mod document;
mod fare;
mod found;
mod journey;
mod misread;
mod notes;
mod pieces;
mod places;
mod prices;
mod reading;
mod rows;
mod second_line;
mod sheet;
mod standing;
mod survey;
mod tables;
mod tree;
mod unknown;

pub use above::Above;
pub use changes::changes_of;
pub use check::{TableReport, check_bytes, check_table, report_table};
pub use comparison::tell_changes;
pub use document::SurveyFault;
pub use fare::{Quote, UnknownStation, cost_of};
pub use found::Found;
pub use journey::tell_fare;
pub use misread::Misread;
pub use notes::check_file;
pub use places::Wanted;
pub use prices::LowCap;
pub use reading::Said;
pub use second_line::{PlaceContent, SecondLine};
pub use sheet::{Sheet, look_over};
pub use standing::Allowed;
pub use survey::Survey;
pub use tables::{first_table, schedule_of, tables_in};
pub use unknown::Unknown;
