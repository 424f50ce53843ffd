//! A value of a table, as it is told.

ghost use Rattle.toml.specs.View.{view};
ghost use Rattle.table_check.specs.Found.{printed_value};

use std::fmt;
use toml::Value;

/// A value that was found in a table. It prints in one line.
#[derive(Clone, Copy, Debug)]
pub struct Found<'a> {
    /// The value.
    pub value: &'a Value,
}

impl<'a> fmt::Display for Found<'a> {
    ghost output = { λ found. printed_value (view found.value.now) };

    fn fmt<W: fmt::Write>(&self, f: &mut fmt::Formatter<W>) -> fmt::Result {
        match self.value {
            Value::String(text) => write!(f, "\"{}\"", text.escape_debug()),
            Value::Integer(number) => write!(f, "{number}"),
            Value::Float(_) => f.write_str("a number with a decimal point"),
            Value::Boolean(true) => f.write_str("true"),
            Value::Boolean(false) => f.write_str("false"),
            Value::Datetime(_) => f.write_str("a date without quotes"),
            Value::Array(items) => {
                let count = items.as_slice().len();
                write!(f, "a list of {count}")
            }
            Value::Table(_) => f.write_str("a table"),
        }
    }
}
