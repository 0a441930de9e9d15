//! Laws of statements. Each function is empty: its contract is the law.
ghost use Rattle.sql_text.specs.Examples.{WorkedExamples};
ghost use Rattle.sql_text.specs.Laws.{BlankLinesAreNoFrames, BlankLinesAreNoStatements, BlankLinesHaveNoTokens, FaultsGiveNoStatement, FramesGiveNoStatement, FramesHaveNoOtherFault, FramesSpellNoStatement, LinesAreOneFrame, LinesGiveOneStatement, LinesHaveOneFault, PrintedIsRead};

/// A line gives one statement at most.
pub fn lines_give_one_statement()
    ensures { LinesGiveOneStatement }
{}

/// A line has one fault at most, at one place, and then it gives no statement.
pub fn lines_have_one_fault()
    ensures once { LinesHaveOneFault }
    ensures alone { FaultsGiveNoStatement }
{}

/// The canonical line of a statement that some line gives is one that gives it.
pub fn printed_is_read()
    ensures { PrintedIsRead }
{}

/// Lines with their tokens or faults, and statements with their canonical lines.
pub fn worked_examples()
    ensures { WorkedExamples }
{}

/// A line is one frame at most.
pub fn lines_are_one_frame()
    ensures { LinesAreOneFrame }
{}

/// No line is both a frame and a statement, nor does a frame's line spell a statement with too many
/// elements.
pub fn frames_are_no_statements()
    ensures given { FramesGiveNoStatement }
    ensures spelled { FramesSpellNoStatement }
{}

/// Read as a statement, a frame's line has no fault but one of syntax: neither a byte nor a token of it
/// is at fault.
pub fn frames_have_no_other_fault()
    ensures { FramesHaveNoOtherFault }
{}

/// A line is blank exactly where it has no tokens, and then it spells neither a frame nor a statement.
pub fn blank_lines()
    ensures tokens { BlankLinesHaveNoTokens }
    ensures frame { BlankLinesAreNoFrames }
    ensures statement { BlankLinesAreNoStatements }
{}
