//! The verdict of a table.

ghost use Rattle.std.specs.Prelude.{◌≡◌, ◌≤◌, IfOk, IfErr};
ghost use Rattle.raise_phases.specs.Verdicts.{verdict_by_action, site_verdict, call_site_table};
ghost use Rattle.raise_phases.specs.Verdicts.{verdict_of, IsVerdict, IsRefusedTable};

use crate::actions::{Actions, cursor_from, place_behind};
use crate::call_sites::{CallSite, sized_sites, table_header};
use crate::fault::LsdaFault;
use crate::outcome::Verdict;

/// The verdict by a call site's action, whose first record is counted from 1 and in bytes from the
/// place of the actions.
fn verdict_by_action(
    table: &Actions,
    actions: usize,
    pad: u64,
    site: &CallSite,
) -> Result<Verdict, LsdaFault>
    ensures { result ≡ verdict_by_action table.now actions pad site.now }
{
    if site.action == 0 {
        return Ok(Verdict::Cleanup { pad });
    }
    let place = actions as u128 + (site.action - 1) as u128;
    table.chain(pad, site.action_at, place_behind(table.bytes.len(), place))
}

/// The verdict of the call site that counts.
#[tactic(auto, unfolding(crate::specs::Verdicts::site_verdict))]
fn site_verdict(
    table: &Actions,
    start: u64,
    actions: usize,
    site: &Option<CallSite>,
) -> Result<Verdict, LsdaFault>
    ensures { result ≡ site_verdict table.now start actions site.now }
{
    match site {
        None => Ok(Verdict::Terminate),
        Some(site) => {
            if site.pad == 0 {
                Ok(Verdict::Continue)
            } else {
                verdict_by_action(table, actions, start.wrapping_add(site.pad), site)
            }
        }
    }
}

/// The bytes of a table at an address, of the function that starts at `first`.
#[derive(Clone, Copy)]
struct TableBytes<'a> {
    first: u64,
    address: u64,
    bytes: &'a [u8],
}

/// The verdict, part by part.
#[tactic(auto, unfolding(crate::specs::Verdicts::call_site_table))]
fn verdict_by_parts(table: &TableBytes<'_>, look: u64, kind: u64) -> Result<Verdict, LsdaFault>
    requires { table.now.first ≤ look }
    ensures { result
        ≡ verdict_of table.now.first table.now.address table.now.bytes.now look kind }
{
    let mut cursor = cursor_from(table.bytes, 0);
    let header = table_header(&mut cursor, table.first, table.address)?;
    let site = sized_sites(&mut cursor, look - table.first, &header)?;
    let table = Actions {
        address: table.address,
        bytes: table.bytes,
        types: header.types,
        kind,
    };
    site_verdict(&table, header.pad_start, cursor.at(), &site)
}

/// The verdict of the table of call sites whose bytes stand at an address, of the function that
/// starts at `first`, on an exception of a kind at the address `look`.
pub fn verdict(
    first: u64,
    address: u64,
    bytes: &[u8],
    look: u64,
    kind: u64,
) -> Result<Verdict, LsdaFault>
    requires { first ≤ look }
    ensures answer { result ≡ verdict_of first address bytes.now look kind }
    ensures given { IfOk result (IsVerdict first address bytes.now look kind) }
    ensures refused { IfErr result (IsRefusedTable first address bytes.now look kind) }
{
    let table = TableBytes {
        first,
        address,
        bytes,
    };
    verdict_by_parts(&table, look, kind)
}
