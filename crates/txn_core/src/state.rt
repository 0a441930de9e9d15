//! The state, and the turns that are taken on it.
ghost use Rattle.std.specs.Prelude.{◌≡◌, ◌+◌, ◌<◌, ◌≤◌, ◌++◌, ◌∷◌, [], IfOk, OnErr, OnOk, length};
ghost use Rattle.txn_core.specs.Courses.{AllTouched, IsPast};
ghost use Rattle.txn_core.specs.Outcomes.{commit_answer, commit_kind, install_answer, install_kind, turn_on};
ghost use Rattle.versions.specs.Operations.{HasColumn, OpsFit, rank_ops};
ghost use Rattle.versions.specs.Turns.{Replays, after_turn};
ghost use Rattle.versions.specs.declared.turn.TurnKind.TheVariants.{Began};

use crate::making::{add_turn, check_room, make_commit, make_install};
use crate::newer::{first_conflict, stamps_of};
use crate::outcome::{Committed, Installed};
use mope_base::{ColNo, Items, OutOfMemory, SessionNo, TableNo};
use std::alloc::Global;
use std::marker::Model;
use versions::{Ending, Snapshot, Turn, TurnKind, Version};

/// The list of the turns that were taken, and the version that they led to from the first one. It is the one value that
/// sessions share, and each takes it for one turn at a time.
///
/// Contracts see beside these how many further turns have their places ready.
#[derive(Drop)]
pub struct State {
    first: Snapshot,
    turns: Vec<Turn>,
    current: Snapshot,
}

impl Model for State {
    ghost use Rattle.std.specs.Prelude.{◌-◌, length, vec_capacity};
    ghost use Rattle.txn_core.specs.Courses.{Course, course_code};

    ghost Value = { Course };

    ghost coded = { course_code };

    ghost use Rattle.txn_core.specs.Since.{IsCourse};

    ghost view = { λ s. record { first = s.first; turns = s.turns.items; current = s.current; spare = vec_capacity s.turns - length s.turns.items } };

    ghost invariant = { λ s. IsCourse s.first s.turns.items s.current };
}

impl State {
    /// No turns yet: the current version is the first one. Its number must be at most 1.
    pub fn new(alloc: Global, first: Version) -> Result<State, OutOfMemory>
        requires { first.number ≤ 1 }
        ensures first { IfOk result (λ state. state.first ≡ first) }
        ensures turns { IfOk result (λ state. state.turns ≡ []) }
        ensures current { IfOk result (λ state. state.current ≡ first) }
    {
        let first = Version::share(alloc, first)?;
        let current = first.again()?;
        Ok(State {
            first,
            turns: Vec::new(alloc),
            current,
        })
    }

    /// Makes one more turn's place ready, unless one is. After `OutOfMemory` the state is as it was.
    pub fn reserve(&mut self) -> Result<(), OutOfMemory>
        ensures ready { OnOk result (1 ≤ self.new.spare) }
        ensures kept { OnOk result (self.old.spare ≤ self.new.spare) }
        ensures first { self.new.first ≡ self.old.first }
        ensures turns { self.new.turns ≡ self.old.turns }
        ensures current { self.new.current ≡ self.old.current }
        ensures unchanged { OnErr result (self.new ≡ self.old) }
    {
        match self.turns.reserve(1) {
            Ok(()) => Ok(()),
            Err(_) => Err(OutOfMemory),
        }
    }

    /// A session's transaction begins: it gets a share of the current version. After `OutOfMemory` the state is as it was.
    pub fn begin(&mut self, session: SessionNo) -> Result<Snapshot, OutOfMemory>
        ensures snapshot { IfOk result (λ snapshot. snapshot ≡ self.old.current) }
        ensures replays { Replays self.old.first self.old.turns self.old.current }
        ensures turn { OnOk result (self.new.turns ≡ self.old.turns ++ turn_on session (Began self.old.current.number) self.old.current ∷ []) }
        ensures current { OnOk result (self.new.current ≡ self.old.current) }
        ensures first { self.new.first ≡ self.old.first }
        ensures spare { OnOk result (self.old.spare ≤ self.new.spare + 1) }
        ensures unchanged { OnErr result (self.new ≡ self.old) }
    {
        let number = self.current.version().number();
        let snapshot = self.current.again()?;
        let began = Turn {
            session,
            what: TurnKind::Began(number),
            changes: Items::new(*self.turns.allocator()),
        };
        add_turn(&mut self.turns, began)?;
        Ok(snapshot)
    }

    /// A session's transaction ends with operations. It conflicts exactly where a table that it touched was written after its
    /// begin, and then the answer names the lowest such table and the version that wrote it last; else its operations make a
    /// new version of the current one. Either is one turn. After `OutOfMemory` the state is as it was.
    ///
    /// The transaction's version must have been the current one; the operations must fit it and be at least one, and each of
    /// their tables must be a touched one.
    pub fn commit(
        &mut self,
        session: SessionNo,
        ending: Ending<'_>,
    ) -> Result<Committed, OutOfMemory>
        requires base { IsPast self.old ending.base.now }
        requires fit { OpsFit (rank_ops ending.ops.now) ending.base.now }
        requires some { 0 < length ending.ops.now }
        requires touched { AllTouched ending.touched.now (rank_ops ending.ops.now) }
        ensures answer { IfOk result (λ answer. answer ≡ commit_answer self.old.current ending.entry.base.now.number ending.entry.touched.now) }
        ensures replays { Replays self.old.first self.old.turns self.old.current }
        ensures turn { OnOk result (self.new.turns ≡ self.old.turns ++ turn_on session (commit_kind self.old.current ending.entry.base.now.number ending.entry.touched.now ending.entry.ops.now) self.old.current ∷ []) }
        ensures current { OnOk result (self.new.current ≡ after_turn (commit_kind self.old.current ending.entry.base.now.number ending.entry.touched.now ending.entry.ops.now) self.old.current) }
        ensures first { self.new.first ≡ self.old.first }
        ensures spare { OnOk result (self.old.spare ≤ self.new.spare + 1) }
        ensures unchanged { OnErr result (self.new ≡ self.old) }
    {
        let alloc = *self.turns.allocator();
        let since = ending.base.version().number();
        match first_conflict(self.current.version(), since, ending.touched) {
            Some((table, number)) => {
                let conflict = Turn {
                    session,
                    what: TurnKind::Conflict { table, number },
                    changes: Items::new(alloc),
                };
                add_turn(&mut self.turns, conflict)?;
                Ok(Committed::Conflict { table, number })
            }
            None => {
                check_room(&self.turns)?;
                let made = make_commit(alloc, self.current.version(), ending.ops)?;
                let turn = Turn {
                    session,
                    what: made.what,
                    changes: made.changes,
                };
                add_turn(&mut self.turns, turn)?;
                self.current = made.version;
                Ok(Committed::Committed(made.number))
            }
        }
    }

    /// A session balances the tree of a column. It is stale exactly where the table was changed after its begin, by a commit or
    /// an install, and then the answer names the version that changed it last; else the balanced tree makes a new version of the
    /// current one. Either is one turn. After `OutOfMemory` the state is as it was.
    ///
    /// The base must have been the current version, and have that table and that column.
    pub fn install(
        &mut self,
        session: SessionNo,
        base: &Snapshot,
        table: TableNo,
        column: ColNo,
    ) -> Result<Installed, OutOfMemory>
        requires base { IsPast self.old base.now }
        requires there { HasColumn table.0 column.0 base.now }
        ensures answer { IfOk result (λ answer. answer ≡ install_answer self.old.current base.now.number table) }
        ensures replays { Replays self.old.first self.old.turns self.old.current }
        ensures turn { OnOk result (self.new.turns ≡ self.old.turns ++ turn_on session (install_kind self.old.current base.now.number table column) self.old.current ∷ []) }
        ensures current { OnOk result (self.new.current ≡ after_turn (install_kind self.old.current base.now.number table column) self.old.current) }
        ensures first { self.new.first ≡ self.old.first }
        ensures spare { OnOk result (self.old.spare ≤ self.new.spare + 1) }
        ensures unchanged { OnErr result (self.new ≡ self.old) }
    {
        let alloc = *self.turns.allocator();
        let since = base.version().number();
        let stamps = stamps_of(self.current.version(), table);
        let number = stamps.written.max(stamps.laid);
        if since < number {
            let stale = Turn {
                session,
                what: TurnKind::Stale { table, number },
                changes: Items::new(alloc),
            };
            add_turn(&mut self.turns, stale)?;
            return Ok(Installed::Stale { table, number });
        }
        check_room(&self.turns)?;
        let made = make_install(alloc, self.current.version(), table, column)?;
        let turn = Turn {
            session,
            what: made.what,
            changes: made.changes,
        };
        add_turn(&mut self.turns, turn)?;
        self.current = made.version;
        Ok(Installed::Installed(made.number))
    }

    /// The turns that were taken, in order.
    pub fn turns(&self) -> &[Turn]
        ensures value { result.now ≡ self.now.turns }
        ensures replays { Replays self.now.first self.now.turns self.now.current }
    {
        self.turns.as_slice()
    }

    /// The turns that were taken, in order, without the versions that they led to.
    pub fn into_turns(self) -> Items<Turn>
        ensures value { result ≡ self.turns }
        ensures replays { Replays self.first self.turns self.current }
    {
        let State {
            first: _,
            turns,
            current: _,
        } = self;
        Items::from_vec(turns)
    }

    /// The current version.
    pub fn snapshot(&self) -> &Snapshot
        ensures value { result.now ≡ self.now.current }
        ensures replays { Replays self.now.first self.now.turns self.now.current }
    {
        &self.current
    }
}
