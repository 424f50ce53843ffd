//! Tables with values worked out by hand, and each fault with its printed line.
mod causes;
mod compared;
mod counts;
mod ends;
mod fares;
mod forms;
mod limits;
mod links;
mod lists;
mod refused;
mod texts;

use super::tables::{Change, changed, table, table_of};
use super::{assert_same, assert_same_at, assert_that};
