//! Versions that many hold.
ghost use Rattle.std.specs.Prelude.{◌≡◌, IfOk};

use crate::op::Op;
use crate::version::Version;
use mope_base::{OutOfMemory, TableNo};
use std::alloc::Global;
use std::marker::Model;
use std::sync::Arc;

/// A share of a version, which contracts see as that version. All shares of one are the same value.
#[derive(Drop)]
pub struct Snapshot {
    version: Arc<Version, Global>,
}

impl Model for Snapshot {
    ghost use Rattle.versions.specs.Databases.{Database, database_code};

    ghost Value = { Database };

    ghost coded = { database_code };

    ghost view = { λ s. s.version.value };
}

/// What a transaction that ends hands over: the version that it began on, the tables that its statements named, and its
/// operations.
#[derive(Clone, Copy)]
pub struct Ending<'a> {
    pub base: &'a Snapshot,
    pub touched: &'a [TableNo],
    pub ops: &'a [Op],
}

impl Version {
    /// The version as one that many can hold.
    pub fn share(alloc: Global, version: Version) -> Result<Snapshot, OutOfMemory>
        ensures { IfOk result (λ snapshot. snapshot ≡ version) }
    {
        let version = Arc::new(alloc, version)?;
        Ok(Snapshot { version })
    }
}

impl Snapshot {
    /// The version itself.
    pub fn version(&self) -> &Version
        ensures { result.now ≡ self.now }
    {
        &self.version
    }

    /// A second share of the same version.
    pub fn again(&self) -> Result<Snapshot, OutOfMemory>
        ensures { IfOk result (λ snapshot. snapshot ≡ self.now) }
    {
        let version = Arc::try_clone(&self.version)?;
        Ok(Snapshot { version })
    }
}
