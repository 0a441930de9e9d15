//! Laws of files. Each function is empty: its contract is the law.
ghost use Rattle.workload_file.specs.GeneratedLaws.{GeneratedIsAWorkload};
ghost use Rattle.workload_file.specs.Theorems.{FilesGiveOneVerdict, TwinFilesGiveOneVerdict, TwinsHaveOneShape, WorkloadsReadAreValid};
ghost use Rattle.workload_file.specs.WorkloadGrammar.{WorkloadsAreReadAsSpelled};

/// The bytes of a file give one verdict at most: one workload, or one line with one reason.
pub fn files_give_one_verdict()
    ensures { FilesGiveOneVerdict }
{}

/// A workload that is read from a file is valid: its names are names and differ, its tables, columns, sessions and
/// lists are within their limits, and its statements are about tables and columns that it declares.
pub fn workloads_read_are_valid()
    ensures { WorkloadsReadAreValid }
{}

/// The text that is generated from a number spells a valid workload, with as many sessions and transactions as were
/// asked for.
pub fn generated_is_a_workload()
    ensures { GeneratedIsAWorkload }
{}

/// A workload is read exactly where it is valid and the lines, but for blank ones, are the header, a TABLE line for
/// each of its tables, for each session the line SESSION and the statements of its script, and END.
pub fn workloads_are_read_as_spelled()
    ensures { WorkloadsAreReadAsSpelled }
{}

/// The bytes of a file of two workloads give one verdict at most: the two, or one line with one reason.
pub fn twin_files_give_one_verdict()
    ensures { TwinFilesGiveOneVerdict }
{}

/// Two workloads whose lines have one shape differ in their constants at most.
pub fn twins_have_one_shape()
    ensures { TwinsHaveOneShape }
{}
