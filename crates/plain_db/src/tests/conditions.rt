//! Tests of what the calls require. The table is `t`, and its columns are `a` and `b`, or one of them.

ghost use Rattle.std.specs.Prelude.{◌≡◌, ◌≤◌, ◌<◌, ◌+◌, ◌^◌, length, IsTrue, MatchOption};
ghost use Rattle.std.specs.List.{sum_by};
ghost use Rattle.sql_text.specs.Words.{IsName};
ghost use Rattle.mope_base.specs.Lists.{Each};
ghost use Rattle.workload.specs.Validity.{AreDistinct, IsValid, IsValidDecl, IsValidScript, IsValidPiece, IsValidAct, IsValidVerb, IsValidTest, IsColumn, IsOrderColumn, IsLimit, IsNumber, HasNumbers, column_count, inserted_numbers, numbers_inserted};
ghost use Rattle.plain_db.specs.Answerable.{IsAnswerable, IsNarrowAct, IncreaseBelow};

use crate::trying::table_of_act;
use mope_base::{ColNo, Items, TableNo};
use sql_text::{Name, Test};
use workload::{Act, Ask, Decl, Piece, PlainDb, PlainRow, Verb, Workload};

fn columns_of(tables: &[Decl], t: TableNo) -> usize
    ensures { result ≡ column_count tables.now t }
{
    let i = t.0 as usize;
    if i < tables.len() {
        tables[i].columns.as_slice().len()
    } else {
        0
    }
}

fn is_column(tables: &[Decl], t: TableNo, column: ColNo) -> bool
    ensures { IsTrue result → IsColumn tables.now t column }
{
    (column.0 as usize) < columns_of(tables, t)
}

fn are_columns(tables: &[Decl], t: TableNo, columns: &[ColNo]) -> bool
    ensures { IsTrue result → Each (IsColumn tables.now t) columns.now }
{
    'columns: for i in 0..columns.len() {
        if !is_column(tables, t, columns[i]) {
            return false;
        }
    }
    true
}

fn is_order_column(tables: &[Decl], t: TableNo, order: Option<(ColNo, bool)>) -> bool
    ensures { IsTrue result → IsOrderColumn tables.now t order }
{
    match order {
        None => true,
        Some((column, _)) => is_column(tables, t, column),
    }
}

/// Always so, by the type.
fn is_number(n: u64) -> bool
    ensures { IsTrue result → IsNumber n }
{
    n <= u64::MAX
}

fn is_limit(limit: Option<u64>) -> bool
    ensures { IsTrue result → IsLimit limit }
{
    match limit {
        None => true,
        Some(limit) => is_number(limit),
    }
}

fn is_valid_verb(tables: &[Decl], t: TableNo, verb: &Verb) -> bool
    ensures { IsTrue result → IsValidVerb tables.now t verb.now }
{
    match verb {
        Verb::Rows {
            columns,
            order,
            limit,
        } => {
            let columns = columns.as_slice();
            if columns.is_empty() || columns.len() > 8 || !are_columns(tables, t, columns) {
                return false;
            }
            is_order_column(tables, t, *order) && is_limit(*limit)
        }
        Verb::Count => true,
        Verb::Min(column) => is_column(tables, t, *column),
        Verb::Max(column) => is_column(tables, t, *column),
        Verb::Delete => true,
    }
}

fn has_numbers(test: Test) -> bool
    ensures { IsTrue result → HasNumbers test }
{
    match test {
        Test::Eq(c) => is_number(c),
        Test::Lt(c) => is_number(c),
        Test::Le(c) => is_number(c),
        Test::Gt(c) => is_number(c),
        Test::Ge(c) => is_number(c),
        Test::Between(low, high) => is_number(low) && is_number(high),
    }
}

fn is_valid_test(tables: &[Decl], t: TableNo, column: ColNo, test: Test) -> bool
    ensures { IsTrue result → IsValidTest tables.now t (column, test) }
{
    is_column(tables, t, column) && has_numbers(test)
}

fn are_valid_tests(tables: &[Decl], t: TableNo, tests: &[(ColNo, Test)]) -> bool
    ensures { IsTrue result → Each (IsValidTest tables.now t) tests.now }
{
    'tests: for i in 0..tests.len() {
        let (column, test) = tests[i];
        if !is_valid_test(tables, t, column, test) {
            return false;
        }
    }
    true
}

fn is_valid_ask(tables: &[Decl], ask: &Ask) -> bool
    ensures { IsTrue result → IsValidAct tables.now (Act.Ask ask.now) }
{
    let tests = ask.tests.as_slice();
    if ask.table.0 as usize >= tables.len() || tests.len() > 8 {
        return false;
    }
    if !are_valid_tests(tables, ask.table, tests) {
        return false;
    }
    is_valid_verb(tables, ask.table, &ask.verb)
}

fn are_numbers(values: &[u64]) -> bool
    ensures { IsTrue result → Each IsNumber values.now }
{
    'values: for i in 0..values.len() {
        if !is_number(values[i]) {
            return false;
        }
    }
    true
}

fn is_valid_act(tables: &[Decl], act: &Act) -> bool
    ensures { IsTrue result → IsValidAct tables.now act.now }
{
    match act {
        Act::Insert { table, values } => {
            (table.0 as usize) < tables.len()
                && values.as_slice().len() == columns_of(tables, *table)
                && are_numbers(values.as_slice())
        }
        Act::Ask(ask) => is_valid_ask(tables, ask),
    }
}

fn are_valid_acts(tables: &[Decl], acts: &[Act]) -> bool
    ensures { IsTrue result → Each (IsValidAct tables.now) acts.now }
{
    'acts: for i in 0..acts.len() {
        if !is_valid_act(tables, &acts[i]) {
            return false;
        }
    }
    true
}

fn is_valid_piece(tables: &[Decl], piece: &Piece) -> bool
    ensures { IsTrue result → IsValidPiece tables.now piece.now }
{
    match piece {
        Piece::Txn { acts, rollback: _ } => {
            acts.as_slice().len() < 1 << 32 && are_valid_acts(tables, acts.as_slice())
        }
        Piece::Rebuild { table, column } => {
            (table.0 as usize) < tables.len() && is_column(tables, *table, *column)
        }
    }
}

/// What is left of `most` after the numbers of a statement.
fn left_by_act(most: u64, act: &Act) -> Option<u64>
    ensures { MatchOption result (Unit {0}) (λ left. left + inserted_numbers act.now ≡ most) }
{
    match act {
        Act::Insert { table: _, values } => most.checked_sub(values.as_slice().len() as u64),
        Act::Ask(_) => Some(most),
    }
}

fn left_by_acts(most: u64, acts: &[Act]) -> Option<u64>
    ensures { MatchOption result (Unit {0}) (λ left. left + sum_by inserted_numbers acts.now ≡ most) }
{
    let mut left = most;
    'acts: for i in 0..acts.len() {
        left = left_by_act(left, &acts[i])?;
    }
    Some(left)
}

fn left_by_piece(most: u64, piece: &Piece) -> Option<u64>
    ensures { MatchOption result (Unit {0}) (λ left. left + numbers_inserted piece.now ≡ most) }
{
    match piece {
        Piece::Txn { acts, rollback: _ } => left_by_acts(most, acts.as_slice()),
        Piece::Rebuild {
            table: _,
            column: _,
        } => Some(most),
    }
}

/// Whether the INSERTs of a script have at most so many numbers.
fn has_few_numbers(most: u64, pieces: &[Piece]) -> bool
    ensures { IsTrue result → sum_by numbers_inserted pieces.now ≤ most }
{
    let mut left = most;
    'pieces: for i in 0..pieces.len() {
        match left_by_piece(left, &pieces[i]) {
            Some(rest) => left = rest,
            None => return false,
        }
    }
    true
}

fn is_valid_script(tables: &[Decl], pieces: &[Piece]) -> bool
    ensures { IsTrue result → IsValidScript tables.now pieces.now }
{
    'pieces: for i in 0..pieces.len() {
        if !is_valid_piece(tables, &pieces[i]) {
            return false;
        }
    }
    if pieces.len() >= 1 << 32 {
        return false;
    }
    has_few_numbers((1 << 32) - 1, pieces)
}

fn are_valid_scripts(tables: &[Decl], scripts: &[Items<Piece>]) -> bool
    ensures { IsTrue result → Each (IsValidScript tables.now) scripts.now }
{
    'scripts: for i in 0..scripts.len() {
        if !is_valid_script(tables, scripts[i].as_slice()) {
            return false;
        }
    }
    true
}

fn differ(a: &Name, b: &Name) -> bool
    ensures { IsTrue result → a.now ≡ b.now → ⊥ }
{
    a.bytes.as_slice() != b.bytes.as_slice()
}

fn are_distinct(names: &[Name]) -> bool
    ensures { IsTrue result → AreDistinct names.now }
{
    if names.len() == 2 {
        return differ(&names[1], &names[0]);
    }
    names.len() == 1
}

fn is_name(name: &Name) -> bool
    ensures { IsTrue result → IsName name.now.bytes }
{
    let bytes = name.bytes.as_slice();
    if bytes == b"t".as_slice() {
        return true;
    }
    if bytes == b"a".as_slice() {
        return true;
    }
    bytes == b"b".as_slice()
}

fn are_names(names: &[Name]) -> bool
    ensures { IsTrue result → Each (λ (name : Name). IsName name.bytes) names.now }
{
    'names: for i in 0..names.len() {
        if !is_name(&names[i]) {
            return false;
        }
    }
    true
}

fn is_valid_decl(d: &Decl) -> bool
    ensures { IsTrue result → IsValidDecl d.now }
{
    let columns = d.columns.as_slice();
    if columns.is_empty() || columns.len() > 8 || !is_name(&d.name) || !are_names(columns) {
        return false;
    }
    are_distinct(columns)
}

/// Whether a workload over one table is valid.
pub(super) fn is_valid(w: &Workload) -> bool
    ensures { IsTrue result → IsValid w.now }
{
    let tables = w.tables.as_slice();
    let scripts = w.sessions.as_slice();
    if tables.len() != 1 || scripts.len() > 64 || !is_valid_decl(&tables[0]) {
        return false;
    }
    are_valid_scripts(tables, scripts)
}

fn is_narrow(act: &Act) -> bool
    ensures { IsTrue result → IsNarrowAct act.now }
{
    match act {
        Act::Insert {
            table: _,
            values: _,
        } => true,
        Act::Ask(ask) => match &ask.verb {
            Verb::Rows {
                columns,
                order: _,
                limit: _,
            } => columns.as_slice().len() <= 8,
            Verb::Count => true,
            Verb::Min(_) => true,
            Verb::Max(_) => true,
            Verb::Delete => true,
        },
    }
}

fn are_numbered(rows: &[PlainRow], next: u64) -> bool
    ensures { IsTrue result → IncreaseBelow 0 next rows.now }
{
    let mut first = 0;
    'rows: for i in 0..rows.len() {
        let number = rows[i].number;
        if number < first || number >= next {
            return false;
        }
        first = number + 1;
    }
    first <= next
}

/// Whether a statement can be answered.
pub(super) fn is_answerable(db: &PlainDb, act: &Act) -> bool
    ensures { IsTrue result → IsAnswerable db.now act.now }
{
    let tables = db.tables.as_slice();
    let t = table_of_act(act).0 as usize;
    if t >= tables.len() || !is_narrow(act) {
        return false;
    }
    let table = &tables[t];
    are_numbered(table.rows.as_slice(), table.next)
}
