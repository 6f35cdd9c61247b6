// What MNT, UMNT and UMNTALL make of the mount table.
#![tactic(auto)]

ghost use Rattle.std.specs.Prelude.{◌≡◌, ◌+◌, ◌≤◌, ◌<◌, length};
ghost use Rattle.kinds.specs.Mount.{rows, most_path_bytes, table_length};
ghost use Rattle.spec.specs.Procedures.{cut};
ghost use Rattle.mount_spec.specs.Table.{find_pair, available_row, add_pair, remove_pair, strike_row, remove_host};
ghost use Rattle.mount_edit.specs.Edits.{found_row, Adds};

use kinds::call::Part;
use kinds::mount::{Row, RowNumber};
use kinds::numbers::Status;
use mount_rows::{clear_row, has_pair, is_of_host, is_used, put_row};

// The row of a pair.
pub fn find_pair(table: &[u8], host: u32, call: &[u8], path: Part) -> Option<RowNumber>
    requires table_len { length table.now ≡ table_length }
    requires length_in_bounds { path.start + path.length ≤ length call.now }
    requires length_le_most_path_bytes { path.length ≤ most_path_bytes }
    ensures { found_row result ≡ find_pair table.now host (cut call.now path) }
{
    (0..Row::COUNT)
        .find(|i| has_pair(table, RowNumber(*i), host, call, path))
        .map(RowNumber)
}

// The lowest free row.
pub fn available_row(table: &[u8]) -> Option<RowNumber>
    requires { length table.now ≡ table_length }
    ensures { found_row result ≡ available_row table.now }
{
    (0..Row::COUNT)
        .find(|i| !is_used(table, RowNumber(*i)))
        .map(RowNumber)
}

// Adds a pair that is not there, or answers SERVERFAULT where no row is free.
#[tactic(auto, unfolding(mount_spec::specs::Table::add_pair, mount_spec::specs::Table::available_row, mount_spec::specs::Table::find_pair))]
pub fn add_pair(table: &mut [u8], host: u32, call: &[u8], path: Part) -> Result<(), Status>
    requires table_len { length table.old ≡ table_length }
    requires length_in_bounds { path.start + path.length ≤ length call.now }
    requires length_le_most_path_bytes { path.length ≤ most_path_bytes }
    ensures { Adds (add_pair table.old host (cut call.now path)) result table.old table.new }
{
    if find_pair(table, host, call, path).is_some() {
        return Ok(());
    }
    let Some(r) = available_row(table) else {
        return Err(Status::SERVERFAULT);
    };
    put_row(table, r, host, call, path);
    Ok(())
}

// Strikes a pair, where it is there.
#[tactic(auto, unfolding(mount_spec::specs::Table::remove_pair, mount_spec::specs::Table::find_pair))]
pub fn remove_pair(table: &mut [u8], host: u32, call: &[u8], path: Part)
    requires table_len { length table.old ≡ table_length }
    requires length_in_bounds { path.start + path.length ≤ length call.now }
    requires length_le_most_path_bytes { path.length ≤ most_path_bytes }
    ensures { table.new ≡ remove_pair table.old host (cut call.now path) }
{
    if let Some(r) = find_pair(table, host, call, path) {
        clear_row(table, r);
    }
}

// Makes row r free where it is of a host.
#[tactic(auto, unfolding(mount_spec::specs::Table::strike_row))]
fn strike_row(table: &mut [u8], host: u32, r: RowNumber)
    requires table_len { length table.old ≡ table_length }
    requires r_lt_rows { r.0 < rows }
    ensures { table.new ≡ strike_row table.old host r.0 }
{
    if is_of_host(table, r, host) {
        clear_row(table, r);
    }
}

// Strikes all pairs of a host.
#[tactic(auto, unfolding(mount_spec::specs::Table::strike_rows, mount_spec::specs::Table::remove_host))]
pub fn remove_host(table: &mut [u8], host: u32)
    requires { length table.old ≡ table_length }
    ensures { table.new ≡ remove_host table.old host }
{
    for i in 0..Row::COUNT {
        strike_row(table, host, RowNumber(i));
    }
}
