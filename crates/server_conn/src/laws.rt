//! Laws of a connection. Each function is empty: its contract is the law.
ghost use Rattle.server_conn.specs.Laws.{AskedTurnsAreAwaited, FullEndsTransaction, RefusalsChangeNothing};

/// A refusal for another reason than a full table leaves the connection as it was.
pub fn refusals_change_nothing()
    ensures { RefusalsChangeNothing }
{}

/// A full table ends the transaction.
pub fn full_ends_transaction()
    ensures { FullEndsTransaction }
{}

/// A turn that is asked for is the one that the connection then waits for.
pub fn asked_turns_are_awaited()
    ensures { AskedTurnsAreAwaited }
{}
