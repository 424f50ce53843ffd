//! What a program prints for `--version`.

/// What stands behind a program's name for `--version`: its version, and below it the toolchain
/// that proved it, by the logic that `rt version` names. Kits of one logic differ by their letter.
pub const VERSION: &str = "1.0.0
proved by Rattle, logic dac8208d650f15bf";
