//! The commands over a journal that is read alone: `verify`, `history` and `balances`.

pub(crate) mod balances;
pub(crate) mod behind;
pub(crate) mod fault;
pub(crate) mod history;
pub(crate) mod output;
pub(crate) mod second_line;
pub(crate) mod settled;
pub(crate) mod verify;
