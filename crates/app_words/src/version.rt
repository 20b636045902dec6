// The version of the program. It stands here alone: `--version`, the package, the tests and CHANGELOG.md are held against it.

/// The version that `dictcat --version` tells behind the program's name.
pub const VERSION: &str = "0.5.0";
