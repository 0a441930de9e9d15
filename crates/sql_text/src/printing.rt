//! A statement as a line.
ghost use Rattle.std.specs.Prelude.{◌≡◌, [], ◌∷◌, ◌++◌, false, IfOk, OnOk, map};
ghost use Rattle.sql_text.specs.Canonical.{canonical, gap, is_close_or_comma, is_function, is_open, is_tight};
ghost use Rattle.sql_text.specs.Grammar.{cond_tokens, direction_tokens, joined, limit_tokens, name_tokens, number_tokens, order_tokens, statement_tokens, test_tokens, what_tokens, where_tokens};
ghost use Rattle.sql_text.specs.Written.{empty_line, put, put_all, put_text};
ghost use Rattle.sql_text.specs.declared.marks.Mark.TheVariants as mark;
ghost use Rattle.sql_text.specs.declared.tokens.Token.TheVariants.{Fixed, Named, Number};

use crate::marks::Mark;
use crate::statements::{Cond, Order, Stmt, What};
use crate::{Name, Test};
use mope_base::{Items, OutOfMemory};
use std::alloc::Global;
use std::io::Write;
use std::marker::Model;

/// The canonical line of a statement: keywords in upper case, one space between tokens, but none after
/// `(`, none before `)`, `,` and the `(` of COUNT, MIN and MAX, no `;` and no `ASC`.
pub fn print(alloc: Global, stmt: &Stmt) -> Result<Items<u8>, OutOfMemory>
    ensures { IfOk result (λ bytes. bytes ≡ canonical stmt.now) }
{
    let mut line = Line::new(alloc);
    line.statement(stmt)?;
    Ok(line.finish())
}

/// A line that is being written, token by token.
#[derive(Drop)]
struct Line {
    bytes: Vec<u8>,
    // The last token, if it is a keyword or a symbol.
    last: Option<Mark>,
}

impl Model for Line {
    ghost use Rattle.sql_text.specs.Written.{Written};

    ghost Value = { Written };

    ghost view = { λ l. record { text = l.bytes.items; last = l.last } };
}

impl Line {
    fn new(alloc: Global) -> Line
        ensures { result ≡ empty_line }
    {
        Line {
            bytes: Vec::new(alloc),
            // A line begins as one goes on after `(`: with no space.
            last: Some(Mark::Open),
        }
    }

    /// The bytes of the line.
    fn finish(self) -> Items<u8>
        ensures { result ≡ self.text }
    {
        Items::from_vec(self.bytes)
    }

    /// Writes a keyword or a symbol.
    fn mark(&mut self, mark: Mark) -> Result<(), OutOfMemory>
        ensures { OnOk result (self.new ≡ put self.old (Fixed mark)) }
    {
        put_gap(&mut self.bytes, is_tight(self.last, Some(mark)))?;
        self.bytes.extend_from_slice(mark.text())?;
        self.last = Some(mark);
        Ok(())
    }

    fn name(&mut self, name: &Name) -> Result<(), OutOfMemory>
        ensures { OnOk result (self.new ≡ put self.old (Named name.now)) }
    {
        put_gap(&mut self.bytes, is_tight(self.last, None))?;
        self.bytes.extend_from_slice(name.bytes.as_slice())?;
        self.last = None;
        Ok(())
    }

    fn number(&mut self, number: u64) -> Result<(), OutOfMemory>
        ensures { OnOk result (self.new ≡ put self.old (Number number)) }
    {
        put_gap(&mut self.bytes, is_tight(self.last, None))?;
        write!(self.bytes, "{number}").map_err(|_| OutOfMemory)?;
        self.last = None;
        Ok(())
    }

    #[tactic(auto, using(crate::proofs::PrintedPuts::put_all_append), unfolding(crate::specs::Written::put_all, crate::specs::Grammar::statement_tokens))]
    fn statement(&mut self, stmt: &Stmt) -> Result<(), OutOfMemory>
        ensures { OnOk result (self.new ≡ put_all self.old (statement_tokens false stmt.now)) }
    {
        match stmt {
            Stmt::Begin => self.mark(Mark::Begin),
            Stmt::Commit => self.mark(Mark::Commit),
            Stmt::Rollback => self.mark(Mark::Rollback),
            Stmt::Rebuild { table, column } => self.rebuild(table, column),
            Stmt::Insert { table, values } => self.insert(table, values.as_slice()),
            Stmt::Delete { table, conds } => self.delete(table, conds.as_slice()),
            Stmt::Select {
                what,
                table,
                conds,
                order,
                limit,
            } => {
                self.mark(Mark::Select)?;
                self.what(what)?;
                self.from(table)?;
                self.conds(conds.as_slice())?;
                self.order(order)?;
                self.limit(*limit)
            }
        }
    }

    #[tactic(auto, unfolding(crate::specs::Written::put_all, crate::specs::Grammar::statement_tokens))]
    fn rebuild(&mut self, table: &Name, column: &Name) -> Result<(), OutOfMemory>
        ensures { OnOk result (self.new ≡ put_all self.old (statement_tokens false (Stmt.Rebuild table.now column.now))) }
    {
        self.mark(Mark::Rebuild)?;
        self.name(table)?;
        self.mark(Mark::Open)?;
        self.name(column)?;
        self.mark(Mark::Close)
    }

    #[tactic(auto, using(crate::proofs::PrintedPuts::put_all_append), unfolding(crate::specs::Written::put_all, crate::specs::Grammar::statement_tokens))]
    fn insert(&mut self, table: &Name, values: &[u64]) -> Result<(), OutOfMemory>
        ensures { OnOk result (self.new ≡ put_all self.old (statement_tokens false (Stmt.Insert table.now values.now))) }
    {
        self.mark(Mark::Insert)?;
        self.mark(Mark::Into)?;
        self.name(table)?;
        self.mark(Mark::Values)?;
        self.mark(Mark::Open)?;
        self.numbers(values)?;
        self.mark(Mark::Close)
    }

    #[tactic(auto, using(crate::proofs::PrintedPuts::put_all_append), unfolding(crate::specs::Written::put_all, crate::specs::Grammar::statement_tokens))]
    fn delete(&mut self, table: &Name, conds: &[Cond]) -> Result<(), OutOfMemory>
        ensures { OnOk result (self.new ≡ put_all self.old (statement_tokens false (Stmt.Delete table.now conds.now))) }
    {
        self.mark(Mark::Delete)?;
        self.from(table)?;
        self.conds(conds)
    }

    /// Writes FROM and the table.
    #[tactic(auto, unfolding(crate::specs::Written::put_all))]
    fn from(&mut self, table: &Name) -> Result<(), OutOfMemory>
        ensures { OnOk result (self.new ≡ put_all self.old (Fixed mark.From ∷ Named table.now ∷ [])) }
    {
        self.mark(Mark::From)?;
        self.name(table)
    }

    #[tactic(auto, unfolding(crate::specs::Written::put_all, crate::specs::Grammar::what_tokens))]
    fn what(&mut self, what: &What) -> Result<(), OutOfMemory>
        ensures { OnOk result (self.new ≡ put_all self.old (what_tokens what.now)) }
    {
        match what {
            What::All => self.mark(Mark::Star),
            What::Columns(names) => self.names(names.as_slice()),
            What::Count => {
                self.mark(Mark::Count)?;
                self.mark(Mark::Open)?;
                self.mark(Mark::Star)?;
                self.mark(Mark::Close)
            }
            What::Min(column) => self.extreme(Mark::Min, column),
            What::Max(column) => self.extreme(Mark::Max, column),
        }
    }

    /// Writes MIN or MAX and its column.
    #[tactic(auto, unfolding(crate::specs::Written::put_all))]
    fn extreme(&mut self, function: Mark, column: &Name) -> Result<(), OutOfMemory>
        ensures { OnOk result (self.new ≡ put_all self.old (Fixed function ∷ Fixed mark.Open ∷ Named column.now ∷ Fixed mark.Close ∷ [])) }
    {
        self.mark(function)?;
        self.mark(Mark::Open)?;
        self.name(column)?;
        self.mark(Mark::Close)
    }

    /// Writes WHERE and the conditions, if there are any.
    fn conds(&mut self, conds: &[Cond]) -> Result<(), OutOfMemory>
        ensures { OnOk result (self.new ≡ put_all self.old (where_tokens conds.now)) }
    {
        if let Some((first, others)) = conds.split_first() {
            self.mark(Mark::Where)?;
            self.cond(first)?;
            'conds: for cond in others {
                self.mark(Mark::And)?;
                self.cond(cond)?;
            }
        }
        Ok(())
    }

    #[tactic(auto, using(crate::proofs::PrintedPuts::put_all_append), unfolding(crate::specs::Written::put_all, crate::specs::Grammar::cond_tokens))]
    fn cond(&mut self, cond: &Cond) -> Result<(), OutOfMemory>
        ensures { OnOk result (self.new ≡ put_all self.old (cond_tokens cond.now)) }
    {
        self.name(&cond.column)?;
        self.test(cond.test)
    }

    #[tactic(auto, unfolding(crate::specs::Written::put_all, crate::specs::Grammar::test_tokens))]
    fn test(&mut self, test: Test) -> Result<(), OutOfMemory>
        ensures { OnOk result (self.new ≡ put_all self.old (test_tokens test)) }
    {
        match test {
            Test::Eq(number) => self.with_number(Mark::Equal, number),
            Test::Lt(number) => self.with_number(Mark::Less, number),
            Test::Le(number) => self.with_number(Mark::LessEqual, number),
            Test::Gt(number) => self.with_number(Mark::Greater, number),
            Test::Ge(number) => self.with_number(Mark::GreaterEqual, number),
            Test::Between(low, high) => {
                self.with_number(Mark::Between, low)?;
                self.with_number(Mark::And, high)
            }
        }
    }

    /// Writes a keyword or a symbol and the number behind it.
    #[tactic(auto, unfolding(crate::specs::Written::put_all))]
    fn with_number(&mut self, mark: Mark, number: u64) -> Result<(), OutOfMemory>
        ensures { OnOk result (self.new ≡ put_all self.old (Fixed mark ∷ Number number ∷ [])) }
    {
        self.mark(mark)?;
        self.number(number)
    }

    #[tactic(auto, unfolding(crate::specs::Written::put_all, crate::specs::Grammar::order_tokens, crate::specs::Grammar::direction_tokens))]
    fn order(&mut self, order: &Option<Order>) -> Result<(), OutOfMemory>
        ensures { OnOk result (self.new ≡ put_all self.old (order_tokens false order.now)) }
    {
        if let Some(order) = order {
            self.mark(Mark::Order)?;
            self.mark(Mark::By)?;
            self.name(&order.column)?;
            if order.down {
                self.mark(Mark::Desc)?;
            }
        }
        Ok(())
    }

    #[tactic(auto, unfolding(crate::specs::Written::put_all, crate::specs::Grammar::limit_tokens))]
    fn limit(&mut self, limit: Option<u64>) -> Result<(), OutOfMemory>
        ensures { OnOk result (self.new ≡ put_all self.old (limit_tokens limit)) }
    {
        match limit {
            Some(number) => self.with_number(Mark::Limit, number),
            None => Ok(()),
        }
    }

    /// Writes names with commas between them.
    fn names(&mut self, names: &[Name]) -> Result<(), OutOfMemory>
        ensures { OnOk result (self.new ≡ put_all self.old (joined mark.Comma (map name_tokens names.now))) }
    {
        if let Some((first, others)) = names.split_first() {
            self.name(first)?;
            'names: for name in others {
                self.mark(Mark::Comma)?;
                self.name(name)?;
            }
        }
        Ok(())
    }

    /// Writes numbers with commas between them.
    fn numbers(&mut self, numbers: &[u64]) -> Result<(), OutOfMemory>
        ensures { OnOk result (self.new ≡ put_all self.old (joined mark.Comma (map number_tokens numbers.now))) }
    {
        if let Some((first, others)) = numbers.split_first() {
            self.number(*first)?;
            'numbers: for number in others {
                self.mark(Mark::Comma)?;
                self.number(*number)?;
            }
        }
        Ok(())
    }
}

/// Appends one space, or nothing.
#[tactic(auto, unfolding(crate::specs::Canonical::gap))]
fn put_gap(bytes: &mut Vec<u8>, tight: bool) -> Result<(), OutOfMemory>
    ensures { OnOk result (bytes.new.items ≡ bytes.old.items ++ gap tight) }
{
    if !tight {
        bytes.push(b' ')?;
    }
    Ok(())
}

/// Whether no space stands between two tokens. `None` is for a name or a number.
fn is_tight(before: Option<Mark>, after: Option<Mark>) -> bool
    ensures { result ≡ is_tight before after }
{
    is_open(before) || is_close_or_comma(after) || (is_function(before) && is_open(after))
}

fn is_open(mark: Option<Mark>) -> bool
    ensures { result ≡ is_open mark }
{
    matches!(mark, Some(Mark::Open))
}

fn is_close_or_comma(mark: Option<Mark>) -> bool
    ensures { result ≡ is_close_or_comma mark }
{
    matches!(mark, Some(Mark::Close | Mark::Comma))
}

/// Whether it is COUNT, MIN or MAX, the name of a function.
fn is_function(mark: Option<Mark>) -> bool
    ensures { result ≡ is_function mark }
{
    matches!(mark, Some(Mark::Count | Mark::Min | Mark::Max))
}

#[cfg(test)]
mod tests;
