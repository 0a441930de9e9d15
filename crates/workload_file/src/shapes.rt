//! The shapes of lines: what they say, but for their constants.
ghost use Rattle.std.specs.Prelude.{◌≡◌, ◌↔◌, ◌∷◌, ◌++◌, codes, IfOk, IsTrue, OnOk, map};
ghost use Rattle.workload_file.specs.Shapes.{cond_shape, statement_shape, test_shape, zero_of};
ghost use Rattle.workload_file.specs.LineTexts.{names_text, shape_text};

use crate::lines::Line;
use mope_base::{Items, OutOfMemory};
use sql_text::{Cond, Frame, Name, Stmt, Test, print};
use std::alloc::Global;

#[tactic(auto, unfolding(crate::specs::Shapes::test_shape))]
fn test_shape(test: Test) -> Test
    ensures { result ≡ test_shape test }
{
    match test {
        Test::Eq(_constant) => Test::Eq(0),
        Test::Lt(_constant) => Test::Lt(0),
        Test::Le(_constant) => Test::Le(0),
        Test::Gt(_constant) => Test::Gt(0),
        Test::Ge(_constant) => Test::Ge(0),
        Test::Between(_low, _high) => Test::Between(0, 0),
    }
}

fn zeros(alloc: Global, values: &[u64]) -> Result<Items<u64>, OutOfMemory>
    ensures { IfOk result (λ zeros. zeros ≡ map zero_of values.now) }
{
    let mut zeros = Items::new(alloc);
    'values: for _value in values {
        zeros.push(0)?;
    }
    Ok(zeros)
}

/// The condition, again, without its constants.
fn cond_shape(alloc: Global, cond: &Cond) -> Result<Cond, OutOfMemory>
    ensures { IfOk result (λ shape. shape ≡ cond_shape cond.now) }
{
    let bytes = cond.column.bytes.as_slice().to_vec(alloc)?;
    Ok(Cond {
        column: Name {
            bytes: Items::from_vec(bytes),
        },
        test: test_shape(cond.test),
    })
}

fn conds_shape(alloc: Global, conds: &[Cond]) -> Result<Items<Cond>, OutOfMemory>
    ensures { IfOk result (λ shapes. shapes ≡ map cond_shape conds.now) }
{
    let mut shapes = Items::new(alloc);
    'conds: for cond in conds {
        shapes.push(cond_shape(alloc, cond)?)?;
    }
    Ok(shapes)
}

/// The statement with 0 in place of each constant.
#[tactic(auto, unfolding(crate::specs::Shapes::statement_shape))]
fn statement_shape(alloc: Global, statement: Stmt) -> Result<Stmt, OutOfMemory>
    ensures { IfOk result (λ shape. shape ≡ statement_shape statement) }
{
    match statement {
        Stmt::Begin => Ok(Stmt::Begin),
        Stmt::Commit => Ok(Stmt::Commit),
        Stmt::Rollback => Ok(Stmt::Rollback),
        Stmt::Rebuild { table, column } => Ok(Stmt::Rebuild { table, column }),
        Stmt::Insert { table, values } => {
            let values = zeros(alloc, values.as_slice())?;
            Ok(Stmt::Insert { table, values })
        }
        Stmt::Delete { table, conds } => {
            let conds = conds_shape(alloc, conds.as_slice())?;
            Ok(Stmt::Delete { table, conds })
        }
        Stmt::Select {
            what,
            table,
            conds,
            order,
            limit,
        } => {
            let conds = conds_shape(alloc, conds.as_slice())?;
            Ok(Stmt::Select {
                what,
                table,
                conds,
                order,
                limit,
            })
        }
    }
}

fn put_name(text: &mut Vec<u8>, name: &Name) -> Result<(), OutOfMemory>
    ensures { OnOk result (text.new.items ≡ text.old.items ++ 32 ∷ name.now.bytes) }
{
    text.push(b' ')?;
    text.extend_from_slice(name.bytes.as_slice())?;
    Ok(())
}

fn put_names(text: &mut Vec<u8>, names: &[Name]) -> Result<(), OutOfMemory>
    ensures { OnOk result (text.new.items ≡ text.old.items ++ names_text names.now) }
{
    'names: for name in names {
        put_name(text, name)?;
    }
    Ok(())
}

#[tactic(auto, unfolding(crate::specs::LineTexts::names_text))]
fn table_text(alloc: Global, name: &Name, columns: &[Name]) -> Result<Items<u8>, OutOfMemory>
    ensures { IfOk result (λ text. text ≡ codes "TABLE" ++ names_text (name.now ∷ columns.now)) }
{
    let mut text = b"TABLE".to_vec(alloc)?;
    put_name(&mut text, name)?;
    put_names(&mut text, columns)?;
    Ok(Items::from_vec(text))
}

fn word(alloc: Global, word: &[u8]) -> Result<Items<u8>, OutOfMemory>
    ensures { IfOk result (λ text. text ≡ word.now) }
{
    Ok(Items::from_vec(word.to_vec(alloc)?))
}

/// A text of what a line says, but for its constants: lines of workloads have the same exactly where they say the
/// same but for these.
#[tactic(auto, unfolding(crate::specs::LineTexts::shape_text))]
fn shape_text(alloc: Global, said: Line) -> Result<Items<u8>, OutOfMemory>
    ensures { IfOk result (λ text. text ≡ shape_text said) }
{
    match said {
        Line::Blank => Ok(Items::new(alloc)),
        Line::Framed(Frame::Header) => word(alloc, b"MOPE"),
        Line::Framed(Frame::Table { name, columns }) => {
            table_text(alloc, &name, columns.as_slice())
        }
        Line::Framed(Frame::Session) => word(alloc, b"SESSION"),
        Line::Framed(Frame::End) => word(alloc, b"END"),
        Line::Stated(statement) => {
            let shape = statement_shape(alloc, statement)?;
            print(alloc, &shape)
        }
        Line::Faulty(_reason) => Ok(Items::new(alloc)),
    }
}

/// Whether two lines say the same but for their constants.
pub fn have_one_shape(alloc: Global, a: Line, b: Line) -> Result<bool, OutOfMemory>
    ensures { IfOk result (λ same. IsTrue same ↔ (shape_text a ≡ shape_text b)) }
{
    let text = shape_text(alloc, a)?;
    let other = shape_text(alloc, b)?;
    Ok(text.as_slice() == other.as_slice())
}
