//! One frame from another.

ghost use Rattle.std.specs.Prelude.{◌≡◌, ◌≢◌, Some, None, Ok, Err, IfOk, IfErr, slice_index};
ghost use Rattle.std.specs.Prelude.{Bool, IfSome, MatchOption};
ghost use Rattle.frame_expr.specs.Values.{IsValue};
ghost use Rattle.frame_rows.specs.declared.rule.CfaRuleWith.TheVariants.{Missing};
ghost use Rattle.frame_rows.specs.Rules.{rule_told, cfa_rule_told};
ghost use Rattle.frame_parse.specs.Sections.{first_cover};
ghost use Rattle.unwind_step.specs.Sources.{IsStepIn};
ghost use Rattle.unwind_step.specs.Rules.{saved_at, IsCfa, IsRestored, IsSavedThere};
ghost use Rattle.unwind_step.specs.declared.next.Stepped.{Stepped};
ghost use Rattle.unwind_step.specs.NextFrame.{Leads, AreRestored, FailsFirst, IsFrame, LacksBytes};
ghost use Rattle.unwind_step.specs.NextFrame.{IsStep, IsNextFrame};

use crate::source::{FdeRow, RowSource};
use frame_expr::{ColumnExpr, NoBytes, Regs, WordSource, one_answer, value};
use frame_parse::Fde;
use frame_rows::{CfaRule, Row, Rule, row_at};

/// What comes of a frame.
#[derive(Clone, Copy, Debug, PartialEq, Eq)]
pub enum Stepped {
    /// The registers of the frame before.
    Frame { regs: Regs },
    /// No rule says where the CFA is, or where the return address is.
    NoRow,
    /// The return address is undefined: there is no frame before.
    Undefined,
    /// The eight bytes at an address weren't recorded.
    NoBytes { address: u64 },
}

/// What comes of a frame whose FDE was found.
#[derive(Clone, Copy, Debug, PartialEq, Eq)]
pub struct FoundStep {
    pub outcome: Stepped,
    /// The CIE says that the frame is a signal's.
    pub signal: bool,
}

/// The eight bytes at an address.
fn saved_at<M: WordSource>(address: u64, memory: &M) -> Result<u64, NoBytes>
    ensures { result ≡ saved_at address (M.regions memory.now) }
{
    match memory.word(address) {
        Some(number) => Ok(number),
        None => Err(NoBytes { address }),
    }
}

/// The number in a column; those above 16 have none.
fn column_of(regs: &Regs, column: usize) -> u64
    ensures { result ≡ slice_index regs.now.columns column }
{
    match regs.columns.get(column) {
        Some(number) => *number,
        None => 0,
    }
}

/// A frame whose caller is asked for: its registers, and the memory beside them.
#[derive(Clone, Copy)]
struct Callee<'c, M> {
    regs: &'c Regs,
    memory: &'c M,
}

/// The CFA, where a rule tells it.
fn cfa_of<M: WordSource>(rule: &CfaRule<'_>, callee: &Callee<'_, M>) -> Result<u64, NoBytes>
    requires { cfa_rule_told (λ e. e.bytes.now) rule.now ≢ Missing }
    ensures { IsCfa (cfa_rule_told (λ e. e.bytes.now) rule.now) callee.now.regs.now.columns
        (M.regions callee.now.memory.now) result }
{
    match rule {
        CfaRule::Missing => unreachable!(),
        CfaRule::Offset { column, by } => {
            Ok(column_of(callee.regs, *column as usize).wrapping_add(*by))
        }
        CfaRule::Expression { expr } => value(expr, callee.regs, callee.memory, None),
    }
}

/// The value of a column's expression, which starts with the CFA.
fn column_value<M: WordSource>(
    expr: &ColumnExpr<'_>,
    cfa: u64,
    callee: &Callee<'_, M>,
) -> Result<u64, NoBytes>
    ensures { IsValue 1 expr.now.bytes.now callee.now.regs.now.columns
        (M.regions callee.now.memory.now) (Some cfa) result }
{
    value(expr, callee.regs, callee.memory, Some(cfa))
}

/// The eight bytes at the value of a column's expression.
fn saved_there<M: WordSource>(
    expr: &ColumnExpr<'_>,
    cfa: u64,
    callee: &Callee<'_, M>,
) -> Result<u64, NoBytes>
    ensures { IsSavedThere expr.now.bytes.now cfa callee.now.regs.now.columns
        (M.regions callee.now.memory.now) result }
{
    match column_value(expr, cfa, callee) {
        Ok(address) => saved_at(address, callee.memory),
        Err(fault) => Err(fault),
    }
}

/// The number that a column is restored to by its rule.
fn restored<M: WordSource>(
    column: usize,
    rule: &Rule<'_>,
    cfa: u64,
    callee: &Callee<'_, M>,
) -> Result<u64, NoBytes>
    ensures { IsRestored column (rule_told (λ e. e.bytes.now) rule.now) cfa
        callee.now.regs.now.columns (M.regions callee.now.memory.now) result }
{
    match rule {
        Rule::Unset if column == 7 => Ok(cfa),
        Rule::Unset | Rule::Undefined | Rule::Same => Ok(column_of(callee.regs, column)),
        Rule::Offset { by } => saved_at(cfa.wrapping_add(*by), callee.memory),
        Rule::ValOffset { by } => Ok(cfa.wrapping_add(*by)),
        Rule::Register { column } => Ok(column_of(callee.regs, *column as usize)),
        Rule::Expression { expr } => saved_there(expr, cfa, callee),
        Rule::ValExpression { expr } => column_value(expr, cfa, callee),
    }
}

/// All columns, each restored by its rule from the old registers.
fn restore_all<M: WordSource>(
    row: &Row<'_>,
    cfa: u64,
    callee: &Callee<'_, M>,
) -> Result<Regs, NoBytes>
    ensures restored { IfOk result (λ new. AreRestored 17 row.now cfa
        callee.now.regs.now.columns (M.regions callee.now.memory.now) new.columns) }
    ensures fails { IfErr result (FailsFirst row.now cfa
        callee.now.regs.now.columns (M.regions callee.now.memory.now)) }
{
    let mut columns = [0; 17];
    for column in 0..17usize {
        let rule = row.rule(column);
        columns[column] = restored(column, &rule, cfa, callee)?;
    }
    Ok(Regs { columns })
}

/// The registers of the frame before, where the row leads to one.
fn frame_before<M: WordSource>(
    row: &Row<'_>,
    rule: &CfaRule<'_>,
    callee: &Callee<'_, M>,
) -> Result<Regs, NoBytes>
    requires leads { Leads row.now }
    requires cfa { cfa_rule_told (λ e. e.bytes.now) rule.now ≡ row.now.cfa }
    ensures frame { IfOk result (λ new. IsFrame row.now
        callee.now.regs.now.columns (M.regions callee.now.memory.now) new.columns) }
    ensures fails { IfErr result (LacksBytes row.now
        callee.now.regs.now.columns (M.regions callee.now.memory.now)) }
{
    let cfa = cfa_of(rule, callee)?;
    restore_all(row, cfa, callee)
}

/// What a row makes of the old registers.
fn follow<M: WordSource>(row: &Row<'_>, callee: &Callee<'_, M>) -> Stepped
    ensures { IsStep row.now callee.now.regs.now.columns (M.regions callee.now.memory.now) result }
{
    let cfa = row.cfa();
    if let CfaRule::Missing = cfa {
        return Stepped::NoRow;
    }
    match row.rule(16) {
        Rule::Undefined => Stepped::Undefined,
        Rule::Unset => Stepped::NoRow,
        _ => match frame_before(row, &cfa, callee) {
            Ok(regs) => Stepped::Frame { regs },
            Err(NoBytes { address }) => Stepped::NoBytes { address },
        },
    }
}

/// What an FDE makes of a frame's registers, at the address where the frame was looked up. It takes
/// no memory.
pub fn step<M: WordSource>(fde: &Fde<'_>, look: u64, regs: &Regs, memory: &M) -> Stepped
    ensures outcome { IsNextFrame fde.now look regs.now.columns (M.regions memory.now) result }
    // Nothing else can come of them.
    ensures only { (other : Stepped)
        → IsNextFrame fde.now look regs.now.columns (M.regions memory.now) other
        → other ≡ result }
{
    one_answer();
    let row = row_at(fde, look);
    follow(&row, &Callee { regs, memory })
}

/// What comes of a frame by the FDE of the address where it was looked up, in a section or in a
/// table made of it. None where no FDE covers the address. It takes no memory.
pub fn step_at<S: RowSource, M: WordSource>(
    source: &S,
    look: u64,
    regs: &Regs,
    memory: &M,
) -> Option<FoundStep>
    ensures outcome { MatchOption result (first_cover look (S.section source.now).fdes ≡ None)
        (λ found. IsStepIn (S.section source.now) look regs.now.columns (M.regions memory.now)
        found.outcome found.signal) }
    // Nothing else can come of it.
    ensures only { IfSome result (λ found. (other : Stepped) (signal : Bool)
        → IsStepIn (S.section source.now) look regs.now.columns (M.regions memory.now)
        other signal → other ≡ found.outcome) }
{
    one_answer();
    match source.row_of(look) {
        None => None,
        Some(FdeRow { fde, row }) => Some(FoundStep {
            outcome: follow(&row, &Callee { regs, memory }),
            signal: fde.signal(),
        }),
    }
}
