//! The version of the programs.

/// The version that each program prints, and the kit that it is proved with.
pub const VERSION: &str = "1.1.0 (rattle-kit-13f logic dac8208d650f15bf)";
