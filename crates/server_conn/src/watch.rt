//! Those who are shown what connections answered.
ghost use Rattle.std.specs.Prelude.{◌≡◌, List, [], ◌∷◌, ◌++◌, OnErr, OnOk};
ghost use Rattle.mope_base.specs.declared.numbers.SessionNo.{SessionNo as NoOfSession};
ghost use Rattle.server_conn.specs.declared.receipt.Receipt.{Receipt as Shown};

use crate::receipt::Receipt;
use mope_base::{Items, OutOfMemory, SessionNo};
use std::alloc::Global;
use std::marker::Model;

/// One who is shown each exchange that a connection answered, with its session.
pub trait Watch {
    /// What it tells of the exchanges that it was shown so far, from the first on: these can be they.
    ghost tells: { Self → List (NoOfSession × Shown) → Type 0 };

    /// Shows an exchange. On `OutOfMemory` it was not shown.
    fn saw(&mut self, session: SessionNo, receipt: Receipt) -> Result<(), OutOfMemory>
        ensures ok { OnOk result ((earlier : List (NoOfSession × Shown)) → tells self.old earlier → tells self.new (earlier ++ (session, receipt) ∷ [])) }
        ensures err { OnErr result ((earlier : List (NoOfSession × Shown)) → tells self.old earlier → tells self.new earlier) };
}

/// Keeps what it is shown.
#[derive(Drop)]
pub struct ListWatch {
    seen: Items<(SessionNo, Receipt)>,
}

impl Model for ListWatch {
    ghost use Rattle.std.specs.Prelude.{List};
    ghost use Rattle.mope_base.specs.declared.numbers.SessionNo.{SessionNo as NoOfSession};
    ghost use Rattle.server_conn.specs.declared.receipt.Receipt.{Receipt as Shown};

    ghost Value = { List (NoOfSession × Shown) };

    ghost view = { λ watch. watch.seen };
}

impl ListWatch {
    /// It was shown nothing. It takes no memory.
    pub fn new(alloc: Global) -> ListWatch
        ensures { result ≡ [] }
    {
        ListWatch {
            seen: Items::new(alloc),
        }
    }

    /// What it was shown, from the first on.
    pub fn seen(&self) -> &[(SessionNo, Receipt)]
        ensures { result.now ≡ self.now }
    {
        self.seen.as_slice()
    }
}

impl Watch for ListWatch {
    ghost tells = { λ watch shown. watch ≡ shown };

    fn saw(&mut self, session: SessionNo, receipt: Receipt) -> Result<(), OutOfMemory> {
        self.seen.push((session, receipt))?;
        Ok(())
    }
}

/// Lets go what it is shown, and tells nothing of it.
#[derive(Clone, Copy, Drop)]
pub struct NoWatch;

impl Watch for NoWatch {
    ghost tells = { λ watch shown. Unit {0} };

    fn saw(&mut self, _session: SessionNo, _receipt: Receipt) -> Result<(), OutOfMemory> {
        Ok(())
    }
}
