// The report's text: lines `key=value`, in decimal.
ghost use Rattle.std.specs.Prelude.{◌≡◌, ◌+◌, ◌≤◌, ◌<◌, length};
ghost use Rattle.words.specs.Bytes.{over};
ghost use Rattle.lentilraft.specs.Report.{digits, width, line, size_lines, row_lines, next_lines, text};

use tables::Tables;

const BASE: u64 = 10;

// `0` and the newline.
const ZERO: u8 = 48;

const NEWLINE: u64 = 10;

// How many decimal digits a number has.
fn places(n: u64) -> usize
    ensures { (result ≡ width 20 n) × (1 ≤ result) × (result ≤ 20) }
{
    let mut k = 1;
    let mut rest = n;
    while BASE <= rest {
        rest /= BASE;
        k += 1;
    }
    k
}

// Puts the last k digits of a number from index at. Each is put where it goes: digits printed into an array, as by the kit's `itoa`, would be
// copied from there by `memcpy`, and the library for C needs nothing of the C library but `memset`.
fn put_digits(out: &mut [u8], at: usize, k: usize, n: u64)
    requires { at + k ≤ length out.old }
    ensures { out.new ≡ over out.old at (digits k n) }
{
    let mut i = k;
    let mut rest = n;
    while 0 < i {
        i -= 1;
        out[at + i] = ZERO + (rest % BASE) as u8;
        rest /= BASE;
    }
}

// Puts a line from index at, and answers the index behind it.
fn put_line(out: &mut [u8], at: usize, key: &[u8], n: u64) -> usize
    requires { at + length key.now + 21 ≤ length out.old }
    ensures { (result ≡ at + length (line key.now n)) × (result ≤ at + length key.now + 21) × (out.new ≡ over out.old at (line key.now n)) }
{
    let start = at + key.len();
    let k = places(n);
    words::copy(out, at, key);
    put_digits(out, start, k, n);
    words::put::<1>(out, start + k, NEWLINE);
    start + k + 1
}

// The form, the chunk size and its exponent.
fn put_sizes(out: &mut [u8], span: u64) -> usize
    requires { 512 ≤ length out.old }
    ensures { (result ≡ length (size_lines span)) × (result ≤ 93) × (out.new ≡ over out.old 0 (size_lines span)) }
{
    let a = put_line(out, 0, b"format=", volume::FORM);
    let b = put_line(out, a, b"chunk_size=", span);
    put_line(out, b, b"chunk_shift=", u64::trailing_zeros(span) as u64)
}

// The rows in use of each table.
fn put_rows(out: &mut [u8], at: usize, nodes: u64, entries: u64, chunks: u64) -> usize
    requires { (at ≤ 93) × (512 ≤ length out.old) }
    ensures { (result ≡ at + length (row_lines nodes entries chunks)) × (result ≤ at + 84) × (out.new ≡ over out.old at (row_lines nodes entries chunks)) }
{
    let a = put_line(out, at, b"nodes=", nodes);
    let b = put_line(out, a, b"entries=", entries);
    put_line(out, b, b"chunks=", chunks)
}

// The free pointers, and what is given out next.
fn put_next(out: &mut [u8], at: usize, free: u64, pointer: u64, node: u64) -> usize
    requires { (at ≤ 177) × (512 ≤ length out.old) }
    ensures { (result ≡ at + length (next_lines free pointer node)) × (result ≤ at + 87) × (out.new ≡ over out.old at (next_lines free pointer node)) }
{
    let a = put_line(out, at, b"free=", free);
    let b = put_line(out, a, b"next_ptr=", pointer);
    put_line(out, b, b"next_node=", node)
}

// Puts the whole text at the front of out, and answers its length.
pub fn put_text(tables: &Tables, out: &mut [u8]) -> usize
    requires { 512 ≤ length out.old }
    ensures { (result ≡ length (text tables.now)) × (result ≤ 512) × (out.new ≡ over out.old 0 (text tables.now)) }
{
    let rows = put_sizes(out, tables.chunk_size());
    let next = put_rows(
        out,
        rows,
        tables.nodes_used() as u64,
        tables.entries_used() as u64,
        tables.chunks_used() as u64,
    );
    put_next(
        out,
        next,
        tables.free_count(),
        tables.max_ptr(),
        tables.next_node(),
    )
}
