//! A module for each library, of its public names alone.

mod of_statement_command;
