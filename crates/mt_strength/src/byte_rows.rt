// Rows of 32 bytes, one after another.
ghost use Rattle.std.specs.Prelude.{◌≡◌, ℕ, ◌+◌, ◌*◌, ◌<◌, ◌≤◌, length};
ghost use Rattle.mt_strength.specs.Lanes.{row_at};

use std::simd::prelude::*;

#[inline(always)]
pub(crate) fn read_row(rows: &[u8], j: usize) -> u8x32
    requires { 32 * j + 32 ≤ length rows.now }
    ensures { result ≡ row_at rows.now j }
{
    u8x32::from_slice(&rows[32 * j..])
}

#[inline(always)]
pub(crate) fn put_row(rows: &mut [u8], j: usize, v: u8x32)
    requires { 32 * j + 32 ≤ length rows.old }
    ensures size { length rows.new ≡ length rows.old }
    ensures done { row_at rows.new j ≡ v }
    ensures before { (i : ℕ) → i < j → row_at rows.new i ≡ row_at rows.old i }
{
    v.copy_to_slice(&mut rows[32 * j..]);
}
