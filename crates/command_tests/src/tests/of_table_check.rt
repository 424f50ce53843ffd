//! Tables that are checked, over readers and writers that give and take little; texts that are
//! looked over and compared; and the command, with the tables that words name.

mod changes;
mod check;
mod commands;
mod fare;
mod notes;
mod rows;
mod tables;
