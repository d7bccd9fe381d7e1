// The steps of a round on a block of 16 bytes, listed column by column (FIPS 197, sections 5.1 and 5.3).
ghost use Rattle.std.specs.Prelude.{◌≡◌, ◌<◌};
ghost use Rattle.aes_cbc.specs.Block.{byte_at, sum_of_bytes, sub_bytes, inv_sub_bytes, shift_rows, inv_shift_rows, mixed_column, mix_columns, inv_mix_columns};

use crate::tables::{inv_mixed_word, inv_sub_byte, mixed_word, sub_byte};

// The byte in this row and column.
#[inline]
fn byte_at(block: &[u8; 16], row: usize, column: usize) -> u8
    requires is_row { row < 4 }
    requires is_column { column < 4 }
    ensures { result ≡ byte_at block.now row column }
{
    block[row + 4 * column]
}

// The sum of two blocks, byte by byte.
#[inline]
pub(crate) fn sum_of_blocks(left: &[u8; 16], right: &[u8; 16]) -> [u8; 16]
    ensures { result ≡ sum_of_bytes left.now right.now }
{
    let mut sum = [0; 16];
    'bytes: for i in 0..16 {
        sum[i] = left[i] ^ right[i];
    }
    sum
}

// SubBytes, and then ShiftRows.
#[inline]
pub(crate) fn substitute(block: &[u8; 16]) -> [u8; 16]
    ensures { result ≡ shift_rows (sub_bytes block.now) }
{
    let mut state = [0; 16];
    'bytes: for i in 0..16 {
        let (row, column) = (i % 4, i / 4);
        state[i] = sub_byte(byte_at(block, row, (column + row) % 4));
    }
    state
}

// InvShiftRows, and then InvSubBytes.
#[inline]
pub(crate) fn restore(block: &[u8; 16]) -> [u8; 16]
    ensures { result ≡ inv_sub_bytes (inv_shift_rows block.now) }
{
    let mut state = [0; 16];
    'bytes: for i in 0..16 {
        let (row, column) = (i % 4, i / 4);
        state[i] = inv_sub_byte(byte_at(block, row, (column + 4 - row) % 4));
    }
    state
}

// MixColumns.
#[inline]
pub(crate) fn mix_columns(block: &[u8; 16]) -> [u8; 16]
    ensures { result ≡ mix_columns block.now }
{
    let mut state = [0; 16];
    'columns: for column in 0..4 {
        let [a, b, c, d] = mixed_column(block, column);
        state[4 * column] = a;
        state[4 * column + 1] = b;
        state[4 * column + 2] = c;
        state[4 * column + 3] = d;
    }
    state
}

// A column after MixColumns: what its four bytes make of it, each one turned to its row.
#[inline]
fn mixed_column(block: &[u8; 16], column: usize) -> [u8; 4]
    requires { column < 4 }
    ensures { result ≡ mixed_column 0x02 0x03 0x01 0x01 block.now column }
{
    let word = mixed_word(byte_at(block, 0, column))
        ^ mixed_word(byte_at(block, 1, column)).rotate_right(8)
        ^ mixed_word(byte_at(block, 2, column)).rotate_right(16)
        ^ mixed_word(byte_at(block, 3, column)).rotate_right(24);
    word.to_be_bytes()
}

// InvMixColumns.
#[inline]
pub(crate) fn inv_mix_columns(block: &[u8; 16]) -> [u8; 16]
    ensures { result ≡ inv_mix_columns block.now }
{
    let mut state = [0; 16];
    'columns: for column in 0..4 {
        let [a, b, c, d] = inv_mixed_column(block, column);
        state[4 * column] = a;
        state[4 * column + 1] = b;
        state[4 * column + 2] = c;
        state[4 * column + 3] = d;
    }
    state
}

// A column after InvMixColumns: what its four bytes make of it, each one turned to its row.
#[inline]
fn inv_mixed_column(block: &[u8; 16], column: usize) -> [u8; 4]
    requires { column < 4 }
    ensures { result ≡ mixed_column 0x0e 0x0b 0x0d 0x09 block.now column }
{
    let word = inv_mixed_word(byte_at(block, 0, column))
        ^ inv_mixed_word(byte_at(block, 1, column)).rotate_right(8)
        ^ inv_mixed_word(byte_at(block, 2, column)).rotate_right(16)
        ^ inv_mixed_word(byte_at(block, 3, column)).rotate_right(24);
    word.to_be_bytes()
}
