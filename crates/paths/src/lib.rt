// Cutting a path into parts, and which names are allowed. Bytes are compared as they stand.
#![tactic(auto)]

ghost use Rattle.std.specs.Prelude.{◌≡◌, ◌+◌, ◌*◌, ◌≤◌, length};
ghost use Rattle.types.specs.Sizes.{most_path};
ghost use Rattle.paths.specs.Path.{name_allowed};
ghost use Rattle.paths.specs.Bounds.{cut_bounds};
ghost use Rattle.paths.specs.Shown.{cutout, RefusedAs, cut_answer, cut_number};
ghost use Rattle.paths.specs.Pieces.{sort_of, placed_as, parts_after};

use types::Error;

// The parts of a path: how many, and whether its last piece was empty, `.` or `..` with a part left (the path then means a
// directory).
#[derive(Clone, Copy)]
pub struct Parts {
    pub count: usize,
    pub opened: bool,
}

// Why a path is refused.
#[derive(Clone, Copy, PartialEq, Eq)]
pub enum PathError {
    NotPermitted,
    TooLong,
}

// The refusal of a path, in the scope's words.
impl From<PathError> for Error {
    ghost from_gives = { RefusedAs };

    fn from(error: PathError) -> Error {
        match error {
            PathError::NotPermitted => Error::PathNotPermitted,
            PathError::TooLong => Error::InvalidArgument,
        }
    }
}

// What a piece is: empty or `.`, `..`, or a name.
#[derive(Clone, Copy, PartialEq, Eq)]
enum Sort {
    Dropped,
    Upward,
    Name,
}

// What sort a piece is of.
#[tactic(auto, using(crate::proofs::Sorts::sorts))]
fn sort_of(piece: &[u8]) -> Sort
    ensures { result ≡ sort_of piece.now }
{
    match piece {
        b"" | b"." => Sort::Dropped,
        b".." => Sort::Upward,
        _ => Sort::Name,
    }
}

// What a piece makes of the parts so far; `opened` says whether it is no name. Each part before it took a byte and a slash at
// least, so there is room for one more.
#[tactic(auto, using(crate::proofs::Sorts::name_some), unfolding(words::specs::Rules::pick))]
fn place_piece(
    piece: &[u8],
    at: usize,
    count: usize,
    starts: &mut [u16; types::MOST_PARTS],
    lengths: &mut [u16; types::MOST_PARTS],
) -> Result<Parts, PathError>
    requires { (2 * count ≤ at) × (at + length piece.now ≤ most_path) }
    ensures { (cutout result starts.new lengths.new ≡ placed_as (sort_of piece.now) at (length piece.now) count starts.old lengths.old) × (2 * parts_after result ≤ at + length piece.now + 1) }
{
    match sort_of(piece) {
        Sort::Dropped => Ok(Parts {
            count,
            opened: true,
        }),
        Sort::Upward => {
            if count == 0 {
                return Err(PathError::NotPermitted);
            }
            Ok(Parts {
                count: count - 1,
                opened: true,
            })
        }
        Sort::Name => {
            starts[count] = at as u16;
            lengths[count] = piece.len() as u16;
            Ok(Parts {
                count: count + 1,
                opened: false,
            })
        }
    }
}

// The parts of a path, as their bounds in two lent arrays. Theorems on what bounds show speak of two lists (cut-shows, cut_fits).
#[tactic(auto, using(crate::proofs::Walk::walking))]
pub fn get_path_parts(
    path: &[u8],
    starts: &mut [u16; types::MOST_PARTS],
    lengths: &mut [u16; types::MOST_PARTS],
) -> Result<Parts, PathError>
    ensures { cutout result starts.new lengths.new ≡ cut_bounds path.now starts.old lengths.old }
{
    if types::MOST_PATH < path.len() {
        return Err(PathError::TooLong);
    }
    if path.starts_with(b"/") {
        return Err(PathError::NotPermitted);
    }
    let mut at = 0;
    let mut parts = Parts {
        count: 0,
        opened: true,
    };
    // Over the bytes: std's `split` takes half as long again where a path has many short pieces.
    for (end, &byte) in path.iter().enumerate() {
        if byte != b'/' {
            continue;
        }
        parts = place_piece(&path[at..end], at, parts.count, starts, lengths)?;
        at = end + 1;
    }
    parts = place_piece(&path[at..], at, parts.count, starts, lengths)?;
    Ok(Parts {
        count: parts.count,
        opened: parts.opened && 0 < parts.count,
    })
}

// What a cut answers: the number of parts, or the refusal.
pub fn cut_answer(cut: Result<Parts, PathError>) -> Result<u64, Error>
    ensures { result ≡ cut_answer cut }
{
    Ok(cut?.count as u64)
}

// The scope's number of a cut: 0 unless the path is refused.
pub fn cut_number(cut: Result<Parts, PathError>) -> u32
    ensures { result ≡ cut_number cut }
{
    types::number(cut_answer(cut))
}

// Whether an entry may have the name: a single piece that is kept as a part, and not too long.
pub fn name_allowed(name: &[u8]) -> bool
    ensures { result ≡ name_allowed name.now }
{
    if types::MOST_NAME < name.len() {
        return false;
    }
    !name.contains(&b'/') && sort_of(name) == Sort::Name
}
