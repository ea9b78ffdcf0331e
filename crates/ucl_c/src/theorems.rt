//! Theorems on the numbers of faults, and on how long screens are. The functions do nothing: each is there for its contract.

ghost use Rattle.ucl_c.specs.Theorems.{FaultsAreWrittenByNumber, ScreensAreShort};

/// Proves that the programs write faults of their input under the numbers for C, and that `ucl_live` answers a bad row by number and name.
pub fn faults_are_written_by_number()
    ensures { FaultsAreWrittenByNumber }
{}

/// Proves that each screen has at most 296 bytes, and that the line of JSON with it, which answers a row of `ucl_live`, has at most 1,423.
/// That holds for any board, clubs, group, order and row, also if names have quotes and backslashes, which take two bytes each in the line.
pub fn screens_are_short()
    ensures { ScreensAreShort }
{}
