// What a call is made of, drawn from a seed.
ghost use Rattle.std.specs.Prelude.{◌≤◌};

// Lehmer's generator: each number is so many times the one before, modulo 2^31 − 1.
const FACTOR: u64 = 48_271;

const PRIME: u64 = 2_147_483_647;

// The chunk sizes, and a number that is none, since it has two bits set.
const SIZE_4K: u64 = 4_096;

const SIZE_8K: u64 = 8_192;

const SIZE_16K: u64 = 16_384;

const SIZE_32K: u64 = 32_768;

const SIZE_64K: u64 = 65_536;

const NO_SIZE: u64 = 12_288;

// The chunks at a file's front in which most calls work, and which are shown.
pub(crate) const WINDOW: u64 = 4;

// Places next to an edge: so many before it, and so many in all.
const BEFORE: u64 = 2;

const AROUND: u64 = 5;

// The most bytes of short data.
const FEW: u64 = 9;

// What a report needs.
const LEAST_OUTPUT: u64 = 512;

// What is rare happens once in so many draws.
pub(crate) const SELDOM: u64 = 8;

// Draws among the calls.
const CALLS: u64 = 68;

// A text has so many different letters, and its number so many digits.
const LETTERS: u64 = 4;

const DIGITS: u64 = 32;

#[derive(Clone, Copy)]
pub(crate) enum Kind {
    Read,
    Write,
    Resize,
    SetLimit,
    Create,
    Link,
    Find,
    Unlink,
    Remove,
    NextEntry,
    Search,
    Report,
    Check,
    SetChunkSize,
    NewVolume,
}

// What is drawn for one call. The last number is what the next call is drawn from.
#[derive(Clone, Copy)]
pub(crate) struct Draw {
    pub kind: Kind,
    pub node: u64,
    pub other: u64,
    pub place: u64,
    pub length: u64,
    pub text: u64,
}

impl Draw {
    // What is drawn from a number.
    pub(crate) fn new(state: u64) -> Draw {
        let kind = joined(state, 0);
        let node = joined(kind, 0);
        let other = joined(node, 0);
        let place = joined(other, 0);
        let length = joined(place, 0);
        Draw {
            kind: kind_of(kind),
            node,
            other,
            place,
            length,
            text: joined(length, 0),
        }
    }
}

// A step of the generator, to which a number is added: so many numbers are told by one.
pub(crate) fn joined(state: u64, number: u64) -> u64 {
    (state % PRIME * FACTOR + number % PRIME) % PRIME
}

// Which call, and how often each is drawn.
fn kind_of(draw: u64) -> Kind {
    match draw % CALLS {
        0..=4 => Kind::Read,
        5..=16 => Kind::Write,
        17..=22 => Kind::Resize,
        23..=25 => Kind::SetLimit,
        26..=37 => Kind::Create,
        38..=41 => Kind::Link,
        42..=44 => Kind::Find,
        45..=52 => Kind::Unlink,
        53..=57 => Kind::Remove,
        58..=59 => Kind::NextEntry,
        60..=63 => Kind::Search,
        64 => Kind::Report,
        65 => Kind::Check,
        66 => Kind::SetChunkSize,
        _ => Kind::NewVolume,
    }
}

// So many chunks of a size, four at most, in bytes.
pub(crate) fn chunks(n: u64, span: u64) -> u64
    ensures { result ≤ 262144 }
{
    n % (WINDOW + 1) * accepted(span)
}

// The span if it is a chunk size, or else the greatest that there is.
fn accepted(span: u64) -> u64
    ensures { result ≤ 65536 }
{
    match span {
        SIZE_4K | SIZE_8K | SIZE_16K | SIZE_32K => span,
        _ => SIZE_64K,
    }
}

// A chunk size, or a number that is none.
pub(crate) fn chunk_size(draw: u64) -> u64 {
    match draw % 6 {
        0 => SIZE_4K,
        1 => SIZE_8K,
        2 => SIZE_16K,
        3 => SIZE_32K,
        4 => SIZE_64K,
        _ => NO_SIZE,
    }
}

// A byte of a file, a size or a limit: next to the end of a chunk, anywhere in the window, or next to the greatest size.
pub(crate) fn place(draw: u64, span: u64) -> u64 {
    let rest = draw / 8;
    match draw % 8 {
        0 => around(types::MOST_SIZE, rest),
        1..=2 => rest % (chunks(WINDOW, span) + 1),
        _ => around(chunks(rest / AROUND, span), rest),
    }
}

// A place next to an edge, or behind one that has no room before it.
fn around(edge: u64, draw: u64) -> u64
    requires { edge ≤ 1099511627776 }
{
    edge.checked_sub(BEFORE).unwrap_or(edge) + draw % AROUND
}

// How many bytes a call is lent: the data of a read or write, a name, a path, an output.
pub(crate) fn lent(draw: Draw, span: u64) -> u64 {
    match draw.kind {
        Kind::Read | Kind::Write => data_length(draw.length, span),
        Kind::Create | Kind::Link | Kind::Search => name_length(draw.length),
        Kind::Find | Kind::Unlink => path_length(draw.length),
        Kind::Report => around(LEAST_OUTPUT, draw.length),
        _ => 0,
    }
}

fn data_length(draw: u64, span: u64) -> u64 {
    let rest = draw / 8;
    match draw % 8 {
        0 => 0,
        1..=4 => 1 + rest % FEW,
        5 => around(chunks(1, span), rest),
        _ => rest % (chunks(2, span) + 1),
    }
}

fn name_length(draw: u64) -> u64 {
    match draw % 32 {
        0 => 0,
        1 => types::MOST_NAME as u64,
        2 => types::MOST_NAME as u64 + 1,
        3..=5 => 2,
        _ => 1,
    }
}

// Paths of two bytes end with a slash, as those that mean a directory do.
fn path_length(draw: u64) -> u64 {
    match draw % 16 {
        0 => 0,
        1..=7 => 1,
        8..=12 => 2,
        13..=14 => 3,
        _ => 5,
    }
}

// A name, by the digits of a number.
pub(crate) fn spell_name(out: &mut [u8], text: u64) {
    let mut rest = text;
    for byte in out.iter_mut() {
        *byte = letter(rest % DIGITS);
        rest /= DIGITS;
    }
}

// A path: a name that has a slash in the place of every second letter.
pub(crate) fn spell_path(out: &mut [u8], text: u64) {
    spell_name(out, text);
    for pair in out.chunks_exact_mut(2) {
        pair[1] = b'/';
    }
}

// A letter, or now and then what no name has.
fn letter(digit: u64) -> u8 {
    match digit {
        0 => b'.',
        1 => b'/',
        _ => b'a' + (digit % LETTERS) as u8,
    }
}

// Whether what is rare happens.
pub(crate) fn is_rare(draw: u64) -> bool {
    draw % SELDOM == 0
}
