// The records and answers that every crate speaks of, and the scope's numbers for them.
#![tactic(auto)]

ghost use Rattle.std.specs.Prelude.{◌≡◌, ◌≤◌, ◌↔◌, IsTrue};
ghost use Rattle.types.specs.Answers.{number, value, NumberedAs};
ghost use Rattle.types.specs.Nodes.{is_directory, limit_word, file_limit};
ghost use Rattle.types.specs.Kinds.{MeansKind, MeansExpected, SpelledAs};

// Words of the header, and of the allocator before its free pointers.
pub const HEADER_WORDS: usize = 8;

pub const ALLOCATOR_WORDS: usize = 16;

// Bytes of a word.
pub const WORD: usize = 8;

// The most rows that a table may have room for.
pub const MOST_ROWS: u64 = 4096;

// The least bytes of the chunk area: one chunk of the greatest size.
pub const LEAST_AREA: u64 = 65536;

// The file limit where a node has none of its own, and the greatest that it may have: 2^40.
pub const MOST_SIZE: u64 = 1_099_511_627_776;

// The longest name, and the room for one in an entry's row.
pub const MOST_NAME: usize = 255;

pub const NAME_ROOM: usize = 256;

// The longest path, and the most parts that one of that length has.
pub const MOST_PATH: usize = 4096;

pub const MOST_PARTS: usize = 2048;

// What a node is.
#[derive(Clone, Copy, PartialEq, Eq)]
pub enum FileType {
    Directory,
    RegularFile,
    SymbolicLink,
}

impl FileType {
    pub fn is_directory(self) -> bool
        ensures { result ≡ is_directory self }
    {
        self == FileType::Directory
    }
}

// A node's row. Without a limit a file may grow to MOST_SIZE.
#[derive(Clone, Copy)]
pub struct NodeRecord {
    pub node: u64,
    pub kind: FileType,
    pub limit: Option<u64>,
    pub links: u64,
    pub size: u64,
}

// What unlink may be told to expect.
#[derive(Clone, Copy, PartialEq, Eq)]
pub enum Expected {
    Any,
    Directory,
    File,
}

// The refusals, with the scope's numbers.
#[derive(Clone, Copy, PartialEq, Eq)]
pub enum Error {
    UnsoundMemory = 1,
    NoSuchEntry = 2,
    IsDirectory = 3,
    NotDirectory = 4,
    FileTooLarge = 5,
    NoChunkRoom = 6,
    NoRowRoom = 7,
    PathNotPermitted = 8,
    BadName = 9,
    NameExists = 10,
    DirectoryNotEmpty = 11,
    Busy = 12,
    InvalidArgument = 13,
    NoIndexLeft = 14,
    OutputTooShort = 15,
}

// What a search that may stop finds: the index and the node of the entry that has the name; that none has it; or the index of the first
// entry that was not looked at. Each with the number looked at.
#[derive(Clone, Copy)]
pub enum Search {
    Found(u32, u64, u64),
    Absent(u64),
    Stopped(u32, u64),
}

// The scope's number of a refusal.
impl From<Error> for u32 {
    ghost from_gives = { NumberedAs };

    fn from(error: Error) -> u32 {
        error as u32
    }
}

// What a type byte means, if anything.
impl TryFrom<u8> for FileType {
    type Error = Error;

    ghost try_from_gives = { MeansKind };

    fn try_from(byte: u8) -> Result<FileType, Error> {
        match byte {
            0 => Ok(FileType::Directory),
            1 => Ok(FileType::RegularFile),
            2 => Ok(FileType::SymbolicLink),
            3..=255 => Err(Error::InvalidArgument),
        }
    }
}

// The type byte of a kind.
impl From<FileType> for u8 {
    ghost from_gives = { SpelledAs };

    fn from(kind: FileType) -> u8 {
        kind as u8
    }
}

// What a byte says of the kind that unlink is to expect: 0 any kind, 1 a directory, 2 a file.
impl TryFrom<u8> for Expected {
    type Error = Error;

    ghost try_from_gives = { MeansExpected };

    fn try_from(byte: u8) -> Result<Expected, Error> {
        match byte {
            0 => Ok(Expected::Any),
            1 => Ok(Expected::Directory),
            2 => Ok(Expected::File),
            3..=255 => Err(Error::InvalidArgument),
        }
    }
}

// The number of an answer: 0 where the call was carried out.
pub fn number(answer: Result<u64, Error>) -> u32
    ensures { (result ≡ number answer) × (result ≤ 15) }
{
    match answer {
        Ok(_) => 0,
        Err(error) => u32::from(error),
    }
}

// What an answer tells besides: 0 for every refusal.
pub fn value(answer: Result<u64, Error>) -> u64
    ensures { result ≡ value answer }
{
    answer.unwrap_or(0)
}

// The limit as a number, 0 where there is none.
pub fn limit_word(limit: Option<u64>) -> u64
    ensures { result ≡ limit_word limit }
{
    limit.unwrap_or(0)
}

// The most bytes that a file may have.
pub fn file_limit(limit: Option<u64>) -> u64
    ensures { result ≡ file_limit limit }
{
    limit.unwrap_or(MOST_SIZE)
}
