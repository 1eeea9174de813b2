// What a search answers, in numbers.
ghost use Rattle.std.specs.Prelude.{◌≡◌};
ghost use Rattle.types.specs.Answers.{search_number, search_case, search_index, search_node, search_looked};

use types::{Error, Search};

// What came of a search.
const ABSENT: u64 = 0;

const FOUND: u64 = 1;

const STOPPED: u64 = 2;

// The number of the answer, what came of the search, an index, a node, and how many entries were looked at.
#[derive(Clone, Copy)]
pub struct SearchNumbers {
    pub number: u64,
    pub case: u64,
    pub index: u64,
    pub node: u64,
    pub looked: u64,
}

// A search that is absent, after no entry.
const NOTHING: SearchNumbers = SearchNumbers {
    number: 0,
    case: ABSENT,
    index: 0,
    node: 0,
    looked: 0,
};

pub fn search_numbers(search: Result<Search, Error>) -> SearchNumbers
    ensures { (result.number ≡ search_number search) × (result.case ≡ search_case search) × (result.index ≡ search_index search) × (result.node ≡ search_node search) × (result.looked ≡ search_looked search) }
{
    match search {
        Ok(Search::Found(index, node, looked)) => SearchNumbers {
            case: FOUND,
            index: u64::from(index),
            node,
            looked,
            ..NOTHING
        },
        Ok(Search::Absent(looked)) => SearchNumbers { looked, ..NOTHING },
        Ok(Search::Stopped(index, looked)) => SearchNumbers {
            case: STOPPED,
            index: u64::from(index),
            looked,
            ..NOTHING
        },
        Err(error) => SearchNumbers {
            number: u64::from(u32::from(error)),
            ..NOTHING
        },
    }
}
