// One row of the mount table: where it stands, what it holds, and how it is written.
#![tactic(auto)]

ghost use Rattle.std.specs.Prelude.{◌≡◌, ◌+◌, ◌≤◌, ◌<◌, length};
ghost use Rattle.kinds.specs.Mount.{rows, most_path_bytes, row_length, table_length};
ghost use Rattle.spec.specs.Procedures.{cut};
ghost use Rattle.mount_spec.specs.Table.{row_start, path_length, row_at, put_row, free_row, is_used_row, is_of_host, has_pair};

use kinds::call::Part;
use kinds::mount::{Row, RowNumber};

// Where row r starts.
pub fn row_place(r: RowNumber) -> usize
    requires { r.0 < rows }
    ensures { (result ≡ row_start r.0) × (result + row_length ≤ table_length) }
{
    Row::BYTES * r.0
}

// The host of row r.
#[tactic(auto, unfolding(mount_spec::specs::Table::row_at))]
pub fn host_of(table: &[u8], r: RowNumber) -> u32
    requires table_len { length table.now ≡ table_length }
    requires r_lt_rows { r.0 < rows }
    ensures { result ≡ (row_at table.now r.0).host }
{
    wire::get_u32(table, row_place(r))
}

// The path length that row r states; 0 where it is free.
#[tactic(auto, unfolding(mount_spec::specs::Table::path_length))]
pub fn path_length(table: &[u8], r: RowNumber) -> usize
    requires table_len { length table.now ≡ table_length }
    requires r_lt_rows { r.0 < rows }
    ensures { result ≡ path_length table.now r.0 }
{
    wire::get_u32(table, row_place(r) + Row::PATH_LENGTH) as usize
}

// Whether row r is used.
#[tactic(auto, unfolding(mount_spec::specs::Table::is_used_row))]
pub fn is_used(table: &[u8], r: RowNumber) -> bool
    requires table_len { length table.now ≡ table_length }
    requires r_lt_rows { r.0 < rows }
    ensures { result ≡ is_used_row table.now r.0 }
{
    path_length(table, r) != 0
}

// Whether row r is used by a host.
#[tactic(auto, unfolding(mount_spec::specs::Table::is_of_host))]
pub fn is_of_host(table: &[u8], r: RowNumber, host: u32) -> bool
    requires table_len { length table.now ≡ table_length }
    requires r_lt_rows { r.0 < rows }
    ensures { result ≡ is_of_host table.now host r.0 }
{
    is_used(table, r) && host_of(table, r) == host
}

// Whether row r has a host and the path in a part of the call.
pub fn has_pair(table: &[u8], r: RowNumber, host: u32, call: &[u8], path: Part) -> bool
    requires table_len { length table.now ≡ table_length }
    requires r_lt_rows { r.0 < rows }
    requires length_in_bounds { path.start + path.length ≤ length call.now }
    requires length_le_most_path_bytes { path.length ≤ most_path_bytes }
    ensures { result ≡ has_pair table.now host (cut call.now path) r.0 }
{
    is_of_host(table, r, host)
        && path_length(table, r) == path.length
        && wire::compare_bytes(
            table,
            row_place(r) + Row::PATH,
            call,
            path.start,
            path.length,
        )
        .same
}

// Writes a host and the path in a part of the call into row r.
pub fn put_row(table: &mut [u8], r: RowNumber, host: u32, call: &[u8], path: Part)
    requires table_len { length table.old ≡ table_length }
    requires r_lt_rows { r.0 < rows }
    requires length_in_bounds { path.start + path.length ≤ length call.now }
    requires length_le_most_path_bytes { path.length ≤ most_path_bytes }
    ensures { table.new ≡ put_row table.old r.0 (record { host = host; path = cut call.now path }) }
{
    let at = row_place(r);
    let start = path.start;
    let n = path.length;
    let from = at + Row::PATH;
    wire::put_u32(table, at, host);
    wire::put_u32(table, at + Row::PATH_LENGTH, n as u32);
    wire::copy_bytes(table, from, call, start, n);
    wire::clear_bytes(table, from + n, Row::MOST_PATH_BYTES - n);
}

// Makes row r free.
pub fn clear_row(table: &mut [u8], r: RowNumber)
    requires table_len { length table.old ≡ table_length }
    requires r_lt_rows { r.0 < rows }
    ensures { table.new ≡ put_row table.old r.0 free_row }
{
    wire::clear_bytes(table, row_place(r), Row::BYTES);
}
