//! Expressions, lent from the bytes that spell them.

ghost use Rattle.std.specs.Prelude.{◌≡◌, ◌≤◌, List, ℕ, IfOk, IfErr, true};
ghost use Rattle.eh_bytes.specs.CursorData.{Gives};
ghost use Rattle.frame_expr.specs.declared.operation.Operation.{Operation};
ghost use Rattle.frame_expr.specs.Expressions.{expression, is_expression, IsExpr, IsRefusedExpr};
ghost use Rattle.frame_expr.specs.Expressions.{IsExprOrRefused};

use crate::fault::ExprFault;
use crate::reading::next;
use eh_bytes::Cursor;

/// Bytes that are an expression whose stack has `DEPTH` numbers at the start.
#[derive(Clone, Copy, Debug, PartialEq, Eq)]
pub struct Expr<'a, const DEPTH: u32> {
    bytes: &'a [u8],
    ghost spelled: { is_expression DEPTH bytes.now ≡ true },
}

/// An expression for the CFA, whose stack is empty at the start.
pub type CfaExpr<'a> = Expr<'a, 0>;

/// An expression for a column, whose stack holds the CFA at the start.
pub type ColumnExpr<'a> = Expr<'a, 1>;

impl<'a, const DEPTH: u32> Expr<'a, DEPTH> {
    /// The expression that the bytes spell. They are lent. Else the first fault, in order of bytes.
    pub fn read(bytes: &'a [u8]) -> Result<Expr<'a, DEPTH>, ExprFault>
        requires { DEPTH ≤ 1 }
        ensures bytes { IfOk result (λ e. e.bytes.now ≡ bytes.now) }
        ensures ok { IfOk result (λ e. (os : List Operation) × IsExpr DEPTH bytes.now os) }
        ensures refused { IfErr result (IsRefusedExpr DEPTH bytes.now) }
    {
        Expr::read_rest(&mut Cursor::new(bytes, 0, bytes.len()))
    }

    /// The expression that all bytes left to a cursor spell. A fault has its place among the
    /// cursor's.
    pub fn read_rest(cursor: &mut Cursor<'a>) -> Result<Expr<'a, DEPTH>, ExprFault>
        requires { DEPTH ≤ 1 }
        ensures { Gives (λ e. e.bytes.now) (expression DEPTH).read cursor.old result cursor.new }
    {
        let bytes = cursor.rest();
        let mut entries = DEPTH;
        while cursor.left() > 0 {
            let (_, after) = next(cursor, entries)?;
            entries = after;
        }
        if entries == 0 {
            return Err(ExprFault::Depth { at: cursor.at() });
        }
        Ok(Expr { bytes })
    }

    /// The expression of bytes that were read as one before, wherever they stood. They aren't read
    /// again.
    pub fn of_read(bytes: &'a [u8]) -> Expr<'a, DEPTH>
        requires { (at : ℕ) × (expression DEPTH).Spells at bytes.now bytes.now }
        ensures { result.bytes.now ≡ bytes.now }
    {
        Expr { bytes }
    }

    /// The bytes that spell it.
    pub fn bytes(&self) -> &'a [u8]
        ensures { result.now ≡ self.now.bytes.now }
    {
        self.bytes
    }

    /// Its bytes are an expression.
    pub fn known(&self)
        ensures { (os : List Operation) × IsExpr DEPTH self.now.bytes.now os }
    {
        let _ = &self.bytes;
    }
}

/// Each list of bytes is an expression of one list of operations, or has one first fault, and never
/// both.
pub fn one_answer()
    ensures { (depth : ℕ) (bytes : List ℕ) → IsExprOrRefused depth bytes }
{}
