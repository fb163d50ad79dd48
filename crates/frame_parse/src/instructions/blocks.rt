//! Blocks: the expressions in a program, which are read where they stand and stay there.

ghost use Rattle.std.specs.Prelude.{◌≤◌};
ghost use Rattle.eh_bytes.specs.CursorData.{Gives};
ghost use Rattle.eh_bytes.specs.Grammar.{lift};
ghost use Rattle.frame_expr.specs.Expressions.{expression};
ghost use Rattle.frame_parse.specs.Programs.{expression_fault, expression_block, skipped_block};
ghost use Rattle.frame_parse.specs.Programs.{column_block};

use crate::fault::RecordFault;
use crate::records::fields::{data, uleb};
use eh_bytes::Cursor;
use frame_expr::{Expr, ExprFault};

/// Reads all that is left as an expression, whose fault is then the record's.
fn expression<'a, const DEPTH: u32>(cursor: &mut Cursor<'a>) -> Result<Expr<'a, DEPTH>, RecordFault>
    requires { DEPTH ≤ 1 }
    ensures { Gives (λ e. e.bytes.now) (lift expression_fault (expression DEPTH)).read
        cursor.old result cursor.new }
{
    match Expr::read_rest(cursor) {
        Ok(expr) => Ok(expr),
        Err(ExprFault::Short { at }) => Err(RecordFault::Short { at }),
        Err(ExprFault::TooWide { at }) => Err(RecordFault::TooWide { at }),
        Err(ExprFault::Operation { at, byte }) => Err(RecordFault::Operation { at, byte }),
        Err(ExprFault::Depth { at }) => Err(RecordFault::Depth { at }),
    }
}

/// A block that is an expression. Given is its place, that of its length.
#[inline(never)]
#[tactic(auto, unfolding(crate::specs::Programs::expression_block))]
pub(super) fn expression_block<const DEPTH: u32>(cursor: &mut Cursor) -> Result<usize, RecordFault>
    requires { DEPTH ≤ 1 }
    ensures { Gives (λ p. p) (expression_block DEPTH).read cursor.old result cursor.new }
{
    let place = cursor.at();
    let length = uleb(cursor)?;
    let at = cursor.at();
    let mut block = data(RecordFault::Short { at }, cursor, length)?;
    expression::<DEPTH>(&mut block)?;
    Ok(place)
}

/// The same of a block that isn't read.
#[inline(never)]
#[tactic(auto, unfolding(crate::specs::Programs::skipped_block))]
fn skipped_block(cursor: &mut Cursor) -> Result<usize, RecordFault>
    ensures { Gives (λ p. p) skipped_block.read cursor.old result cursor.new }
{
    let place = cursor.at();
    let length = uleb(cursor)?;
    let at = cursor.at();
    data(RecordFault::Short { at }, cursor, length)?;
    Ok(place)
}

/// The block of a column's rule, which is read up to column 16.
pub(super) fn column_block(cursor: &mut Cursor, column: u64) -> Result<usize, RecordFault>
    ensures { Gives (λ p. p) (column_block column).read cursor.old result cursor.new }
{
    if column > 16 {
        skipped_block(cursor)
    } else {
        expression_block::<1>(cursor)
    }
}
