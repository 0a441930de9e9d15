//! What a server's turns tell is what the run of the world tells: laws. Each function is empty: its contract is the law.
ghost use Rattle.run_laws.specs.TellingLaws.{BeginTells, CommitTells, InstallTells};

/// The begin of a session's transaction on the server's version is the next turn of the run.
pub fn begin_tells()
    ensures { BeginTells }
{}

/// So is its commit, or its conflict, by the operations as the connection keeps them and by the stamps that the server has.
pub fn commit_tells()
    ensures { CommitTells }
{}

/// And its install, or its stale end.
pub fn install_tells()
    ensures { InstallTells }
{}
