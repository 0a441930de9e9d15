//! Why a file was refused.
ghost use Rattle.std.specs.Prelude.{◌≡◌};

use mope_base::OutOfMemory;

/// Why a line may not stand where it does, in the order in which the reasons are looked for.
#[derive(Clone, Copy, Debug, PartialEq, Eq)]
pub enum FileReason {
    /// The file has more than 67,108,864 bytes. It is said of line 0.
    InputTooLong,
    /// The line isn't blank and comes after END.
    TextAfterEnd,
    /// A byte is neither a tab nor one from the space to `~`.
    BadByte,
    /// At the first token fault from the left no token starts, or a word has more than 32 bytes, or a
    /// number has a leading zero or is followed at once by a letter or an underscore.
    BadToken,
    /// The first token fault from the left is a number above 18446744073709551615.
    TooLarge,
    /// The tokens aren't a line that may stand at this place of the file.
    Syntax,
    /// It is a 17th table, a table of nine columns, or a 65th session, or has a ninth condition or a ninth
    /// name in the list of a SELECT.
    TooMany,
    /// The table's name was declared before, or one of its columns' names stands twice.
    RepeatedName,
    /// The table isn't declared.
    UnknownTable,
    /// A column isn't one of the table's.
    UnknownColumn,
    /// The numbers of an INSERT aren't as many as the columns.
    WrongWidth,
    /// It is BEGIN or REBUILD inside a transaction, COMMIT or ROLLBACK outside one, or SESSION or END where
    /// one isn't ended.
    Transaction,
    /// The lines run out before END. It is said of the line after the last.
    NoEnd,
    /// Of two workloads the second has another shape than the first.
    ShapesDiffer,
}

/// Why a file gave no workload.
#[derive(Clone, Copy, Debug, PartialEq, Eq)]
pub enum FileStop {
    /// The line, numbered from 1, is the first that has a fault, and this is its first reason.
    Bad { line: u64, reason: FileReason },
    /// Memory did not suffice.
    OutOfMemory,
}

impl From<OutOfMemory> for FileStop {
    ghost use Rattle.workload_file.specs.declared.stops.FileStop.TheVariants.{OutOfMemory};

    ghost from_gives = { λ _ stop. stop ≡ OutOfMemory };

    fn from(_e: OutOfMemory) -> FileStop {
        FileStop::OutOfMemory
    }
}
