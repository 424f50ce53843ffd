//! What no clause says of reading an input whole and writing a text whole: where it ends well.

mod reads;
mod writes;

use super::{assert_same, assert_same_at};
