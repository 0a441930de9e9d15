//! Laws of the definitions. Each function is empty: its contract is the law.

ghost use Rattle.report.specs.Laws.{PlainTextIsReport, TextIsReport};

/// The text of the turns and of the history of a run, with its next free nonce, is the run's report.
pub fn text_is_report()
    ensures { TextIsReport }
{}

/// Without the nonce it is the report before the line of the nonce.
pub fn plain_text_is_report()
    ensures { PlainTextIsReport }
{}
