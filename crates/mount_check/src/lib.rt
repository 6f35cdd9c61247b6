// The check of the mount table. Each used row gets a digest of its path, so that two rows are compared byte by byte only where their digests agree.
#![tactic(auto)]

ghost use Rattle.std.specs.Prelude.{◌≡◌, ◌+◌, ◌*◌, ◌<◌, ◌≤◌, true, length};
ghost use Rattle.kinds.specs.Mount.{rows, table_length};
ghost use Rattle.mount_spec.specs.Table.{path_length, is_used_row, good_row, good_used_row, passes_table};
ghost use Rattle.mount_check.specs.Digest.{summed, digest};
ghost use Rattle.mount_check.specs.Rows.{is_same_pair, IsNew, RowsPass, Tells};

use kinds::call::Part;
use kinds::mount::{Row, RowNumber};
use mount_rows::{has_pair, host_of, path_length, row_place};
use wire::hash::{join, word_at};

// Whether row r, which states a path of n bytes, n other than 0, passes by itself.
fn good_used_row(table: &[u8], r: RowNumber, n: usize) -> bool
    requires table_len { length table.now ≡ table_length }
    requires r_lt_rows { r.0 < rows }
    requires n_value { n ≡ path_length table.now r.0 }
    requires le_n { 1 ≤ n }
    ensures { result ≡ good_used_row table.now r.0 }
{
    let from = row_place(r) + Row::PATH;
    n <= Row::MOST_PATH_BYTES
        && table[from] == b'/'
        && wire::is_zero(table, from + n, Row::MOST_PATH_BYTES - n)
}

// Whether row r, which states a path of n bytes, passes by itself.
fn good_row(table: &[u8], r: RowNumber, n: usize) -> bool
    requires table_len { length table.now ≡ table_length }
    requires r_lt_rows { r.0 < rows }
    requires n_value { n ≡ path_length table.now r.0 }
    ensures { result ≡ good_row table.now r.0 }
{
    if n == 0 {
        let at = row_place(r);
        // Two calls: one of the whole row takes 5.4 % more instructions on an empty table.
        return wire::is_zero(table, at, Row::PATH)
            && wire::is_zero(table, at + Row::PATH, Row::MOST_PATH_BYTES);
    }
    good_used_row(table, r, n)
}

// k groups of 32 bytes from `at`: the words of eight bytes at each of the four places of a group added up, wrapping, and the four sums joined. No
// sum needs another one before the end, and the compiler makes one addition of each word.
#[tactic(auto, unfolding(crate::specs::Digest::lane, crate::specs::Digest::summed))]
fn sum_words(table: &[u8], at: usize, k: usize) -> usize
    requires { at + 32 * k ≤ length table.now }
    ensures { result ≡ summed table.now at k }
{
    let mut a = 0usize;
    let mut b = 0usize;
    let mut c = 0usize;
    let mut d = 0usize;
    for i in 0..k {
        let from = at + 32 * i;
        a = a.wrapping_add(word_at(table, from));
        b = b.wrapping_add(word_at(table, from + 8));
        c = c.wrapping_add(word_at(table, from + 16));
        d = d.wrapping_add(word_at(table, from + 24));
    }
    join(join(join(a, b), c), d)
}

// Whether row q has the host and the path of row r, which is used and passes by itself.
fn same_pair(table: &[u8], q: RowNumber, r: RowNumber) -> bool
    requires table_len { length table.now ≡ table_length }
    requires q_lt_rows { q.0 < rows }
    requires r_lt_rows { r.0 < rows }
    requires r_value { is_used_row table.now r.0 ≡ true }
    requires r_value_2 { good_row table.now r.0 ≡ true }
    ensures { result ≡ is_same_pair table.now r.0 q.0 }
{
    let path = Part {
        start: row_place(r) + Row::PATH,
        length: path_length(table, r),
    };
    has_pair(table, q, host_of(table, r), table, path)
}

// Whether no row before r, which is used and passes by itself, has its pair. `own` is the digest of r.
fn is_new_pair(table: &[u8], r: RowNumber, own: usize, digests: &[usize; Row::COUNT]) -> bool
    requires table_len { length table.now ≡ table_length }
    requires r_lt_rows { r.0 < rows }
    requires r_value { is_used_row table.now r.0 ≡ true }
    requires r_value_2 { good_row table.now r.0 ≡ true }
    requires own_value { own ≡ digest table.now r.0 }
    requires rows_pass { RowsPass table.now r.0 digests.now }
    ensures { Tells result table.now (IsNew table.now r.0) }
{
    for i in 0..r.0 {
        if digests[i] == own && same_pair(table, RowNumber(i), r) {
            return false;
        }
    }
    true
}

// Whether row r passes, and with the rows before it.
fn row_passes(table: &[u8], r: RowNumber, digests: &mut [usize; Row::COUNT]) -> bool
    requires table_len { length table.now ≡ table_length }
    requires r_lt_rows { r.0 < rows }
    requires rows_pass { RowsPass table.now r.0 digests.old }
    ensures { Tells result table.now (RowsPass table.now (r.0 + 1) digests.new) }
{
    let n = path_length(table, r);
    if !good_row(table, r, n) {
        return false;
    }
    if n == 0 {
        return true;
    }
    let own = sum_words(table, row_place(r) + Row::PATH, n.div_ceil(32));
    if !is_new_pair(table, r, own, digests) {
        return false;
    }
    let i = r.0;
    digests[i] = own;
    true
}

// Whether the mount table passes its check.
pub fn check_table(table: &[u8]) -> bool
    ensures { result ≡ passes_table table.now }
{
    if table.len() != Row::TABLE_BYTES {
        return false;
    }
    let mut digests = [0usize; Row::COUNT];
    for i in 0..Row::COUNT {
        if !row_passes(table, RowNumber(i), &mut digests) {
            return false;
        }
    }
    true
}
