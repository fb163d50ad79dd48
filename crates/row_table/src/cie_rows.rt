//! The rows that the initial instructions of CIEs leave. Each is made once, and found again for
//! every FDE of its CIE, wherever these stand.

ghost use Rattle.std.specs.Prelude.{◌≡◌, ◌<◌, [], length, get_or, All, IfOk, IfErr};
ghost use Rattle.std.specs.Prelude.{IfSome, true};
ghost use Rattle.frame_parse.specs.Sections.{SectionData};
ghost use Rattle.row_table.specs.Initials.{IsFdeIn, IsCieRow, no_cie_row};

use crate::fault::TableFault;
use frame_parse::{CieRecord, Fde};
use frame_rows::{PlacedRow, initial_row, initial_rows_are_the_cies};
use std::alloc::Global;
use std::collections::BTreeMap;
use std::marker::Model;

/// A CIE, and the row that its initial instructions leave.
#[derive(Clone, Copy)]
pub(crate) struct CieRow {
    cie: CieRecord,
    row: PlacedRow,
}

/// Those of the CIEs that were met.
#[derive(Drop)]
pub(crate) struct CieRows {
    rows: Vec<CieRow>,
    /// By the place where a CIE begins, the number of its row.
    numbers: BTreeMap<usize, usize>,
    /// The number that was told last. Most FDEs have the CIE of the one before.
    last: usize,
}

fn is_same(cie: &CieRecord, other: &CieRecord) -> bool
    ensures { result ≡ true → cie.now ≡ other.now }
{
    *cie == *other
}

impl Model for CieRows {
    ghost use Rattle.std.specs.Prelude.{List};
    ghost use Rattle.row_table.specs.declared.cie_rows.CieRow.{CieRow};

    ghost Value = { List CieRow };

    ghost view = { λ c. c.rows.items };
}

impl CieRows {
    pub(crate) fn new(alloc: Global) -> CieRows
        ensures { result ≡ [] }
    {
        CieRows {
            rows: Vec::new(alloc),
            numbers: BTreeMap::new(alloc),
            last: 0,
        }
    }

    /// Whether a number is that of a CIE's row.
    fn is_of(&self, number: usize, cie: &CieRecord) -> bool
        ensures within { result ≡ true → number < length self.now }
        ensures cie { result ≡ true → (get_or self.now number no_cie_row).cie ≡ cie.now }
    {
        number < self.rows.len() && is_same(&self.rows[number].cie, cie)
    }

    /// The number of a CIE's row that was made before.
    fn known(&self, cie: &CieRecord) -> Option<usize>
        ensures within { IfSome result (λ number. number < length self.now) }
        ensures cie { IfSome result (λ number. (get_or self.now number no_cie_row).cie ≡ cie.now) }
    {
        if self.is_of(self.last, cie) {
            return Some(self.last);
        }
        let number = *self.numbers.get(&cie.start)?;
        if self.is_of(number, cie) {
            Some(number)
        } else {
            None
        }
    }

    /// The number of the row that an FDE's initial instructions leave. It is made where none of its
    /// CIE's was before.
    pub(crate) fn number_of(&mut self, fde: &Fde<'_>) -> Result<usize, TableFault>
        ensures within { IfOk result (λ number. number < length self.new) }
        ensures cie { IfOk result
            (λ number. (get_or self.new number no_cie_row).cie ≡ fde.now.entry.cie) }
        ensures memory { IfErr result (λ fault. fault ≡ TableFault.NoMemory) }
        ensures rows { (s : SectionData) → IsFdeIn s fde.now → All (IsCieRow s) self.old
            → All (IsCieRow s) self.new }
    {
        if let Some(number) = self.known(fde.cie()) {
            self.last = number;
            return Ok(number);
        }
        initial_rows_are_the_cies();
        let number = self.rows.len();
        let cie = *fde.cie();
        let row = initial_row(fde);
        self.last = number;
        self.numbers.insert(cie.start, number)?;
        self.rows.push(CieRow { cie, row })?;
        Ok(number)
    }

    /// The row of a number.
    pub(crate) fn row(&self, number: usize) -> &PlacedRow
        requires { number < length self.now }
        ensures { result.now ≡ (get_or self.now number no_cie_row).row }
    {
        &self.rows[number].row
    }
}
