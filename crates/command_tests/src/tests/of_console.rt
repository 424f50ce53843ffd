//! What each command has in common: the files of the system, and files by hand, by which the
//! commands over tables are tried.

mod fakes;
mod system;

use self::fakes::GivenFiles;
use console::TrialFault;
use std::alloc::Global;
use std::process::ExitCode;
use std::test::Fail;

/// A table of two stations.
const OLD: &str = "zone = \"GMT0\"\nentry_minimum = 150\nbalance_limit = 9000\nleg_minutes = 90\n\
evening_rule = true\nmaximum_peak = 900\nmaximum_off_peak = 700\n\
station = [{id = 1, name = \"A\", zones = [1]}, {id = 2, name = \"B\", zones = [1]}]\n\
single = [{low = 1, high = 1, peak = 300, off_peak = 250}]\n";

/// The same, with another price.
const NEW: &str = "zone = \"GMT0\"\nentry_minimum = 150\nbalance_limit = 9000\nleg_minutes = 90\n\
evening_rule = true\nmaximum_peak = 900\nmaximum_off_peak = 700\n\
station = [{id = 1, name = \"A\", zones = [1]}, {id = 2, name = \"B\", zones = [1]}]\n\
single = [{low = 1, high = 1, peak = 320, off_peak = 250}]\n";

/// The same as the first, with a key that nobody knows.
const NOTED: &str = "zone = \"GMT0\"\nentry_minimum = 150\nbalance_limit = 9000\nleg_minutes = 90\n\
evening_rule = true\nmaximum_peak = 900\nmaximum_off_peak = 700\ncaps = 1\n\
station = [{id = 1, name = \"A\", zones = [1]}, {id = 2, name = \"B\", zones = [1]}]\n\
single = [{low = 1, high = 1, peak = 300, off_peak = 250}]\n";

/// No table.
const BAD: &str = "zone = \n";

/// The files that there are.
pub(crate) const FILES: GivenFiles = GivenFiles {
    files: &[
        ("old.toml", OLD),
        ("new.toml", NEW),
        ("noted.toml", NOTED),
        ("bad.toml", BAD),
    ],
};

/// What a command answered: its status, or the line of its fault with the line behind it.
pub(crate) fn answered(
    alloc: Global,
    answer: Result<ExitCode, TrialFault>,
) -> Result<String, Fail> {
    match answer {
        Ok(status) if status == ExitCode::SUCCESS => Ok(String::from_str(alloc, "0")?),
        Ok(status) if status == ExitCode::FAILURE => Ok(String::from_str(alloc, "1")?),
        Ok(_) => Err("another status".into()),
        Err(fault) => told(alloc, &fault),
    }
}

/// The line of a fault, with the line behind it.
pub(crate) fn told(alloc: Global, fault: &TrialFault) -> Result<String, Fail> {
    let behind = fault.detail().unwrap_or("");
    Ok(format!(in alloc; "{fault}{behind}")?)
}
