// The public calls for programs in C or Rust. Each function here is a call and the scope's numbers of its answer, and nothing else: it asks
// nothing of its caller, and gives back 0 or the number of a refusal.
#![tactic(auto)]

ghost use Rattle.std.specs.Prelude.{◌≡◌};
ghost use Rattle.types.specs.Answers.{number};
ghost use Rattle.allocator.specs.Opening.{opened};
ghost use Rattle.volume.specs.Fresh.{new_volume};
ghost use Rattle.lentilraft.specs.Door.{check, set_chunk_size, set_limit, read, resize, write, find_node, search, create, link, unlink_byte, remove};
ghost use Rattle.lentilraft.specs.EntryGiven.{next_name};
ghost use Rattle.lentilraft.specs.Report.{report};
ghost use Rattle.rim.specs.Given.{Gives, GivesCount, GivesValue, GivesName, GivesSearch};

use types::Search;

// What came of a search.
const ABSENT: u32 = 0;

const FOUND: u32 = 1;

const STOPPED: u32 = 2;

// Makes the memory a new volume with these rooms and this chunk size.
pub fn lentilraft_new_volume(
    volume: &mut [u8],
    nodes: u64,
    entries: u64,
    chunks: u64,
    span: u64,
) -> u32
    ensures { Gives (new_volume nodes entries chunks span volume.old) result volume.new }
{
    types::number(volume::new_volume(volume, nodes, entries, chunks, span))
}

// Whether the memory is a sound volume: 0, or 1.
pub fn lentilraft_check(volume: &[u8]) -> u32
    ensures { result ≡ number (check volume.now) }
{
    types::number(lentilraft::check(volume))
}

// Opens an allocator's words that stand by themselves, and brings an older form up to date.
pub fn lentilraft_open_allocator(words: &mut [u8]) -> u32
    ensures { Gives (opened words.old) result words.new }
{
    types::number(allocator::open(words))
}

// Sets the chunk size; another one only if no pointer was ever given out.
pub fn lentilraft_set_chunk_size(volume: &mut [u8], span: u64) -> u32
    ensures { Gives (set_chunk_size span volume.old) result volume.new }
{
    types::number(lentilraft::set_chunk_size(volume, span))
}

// Reads a file's bytes from an offset on. The count goes through a lent place: 0 for a refusal.
pub fn lentilraft_read(
    volume: &[u8],
    node: u64,
    offset: u64,
    buffer: &mut [u8],
    count: &mut u64,
) -> u32
    ensures { GivesCount (read node offset volume.now buffer.old) result buffer.new count.new }
{
    let answer = lentilraft::read(volume, node, offset, buffer);
    *count = types::value(answer);
    types::number(answer)
}

// Puts the report's text at the front of the output. The count goes through a lent place: 0 for a refusal.
pub fn lentilraft_report(volume: &[u8], out: &mut [u8], count: &mut u64) -> u32
    ensures { GivesCount (report volume.now out.old) result out.new count.new }
{
    let answer = lentilraft::report(volume, out);
    *count = types::value(answer);
    types::number(answer)
}

// Sets a file's limit.
pub fn lentilraft_set_limit(volume: &mut [u8], node: u64, limit: u64) -> u32
    ensures { Gives (set_limit node (Some limit) volume.old) result volume.new }
{
    types::number(lentilraft::set_limit(volume, node, Some(limit)))
}

// Takes a file's limit away.
pub fn lentilraft_clear_limit(volume: &mut [u8], node: u64) -> u32
    ensures { Gives (set_limit node None volume.old) result volume.new }
{
    types::number(lentilraft::set_limit(volume, node, None))
}

// Gives a file another size. What it gains reads zero.
pub fn lentilraft_resize_file(volume: &mut [u8], node: u64, size: u64) -> u32
    ensures { Gives (resize node size volume.old) result volume.new }
{
    types::number(lentilraft::resize_file(volume, node, size))
}

// Writes bytes into a file from an offset on. The count goes through a lent place: 0 for a refusal.
pub fn lentilraft_write(
    volume: &mut [u8],
    node: u64,
    offset: u64,
    bytes: &[u8],
    count: &mut u64,
) -> u32
    ensures { GivesCount (write node offset bytes.now volume.old) result volume.new count.new }
{
    let answer = lentilraft::write(volume, node, offset, bytes);
    *count = types::value(answer);
    types::number(answer)
}

// Finds the node that a path leads to from a start. The node goes through a lent place: 0 for a refusal.
pub fn lentilraft_find_node(volume: &[u8], start: u64, path: &[u8], node: &mut u64) -> u32
    ensures { GivesValue (find_node start path.now volume.now) result node.new }
{
    let answer = lentilraft::find_node(volume, start, path);
    *node = types::value(answer);
    types::number(answer)
}

// Finds the entry of a directory with the least index at or above one: where its name stands in the volume, how long it is, its index and
// its node go through lent places, each 0 for a refusal.
pub fn lentilraft_next_entry(
    volume: &[u8],
    directory: u64,
    from: u32,
    at: &mut u64,
    length: &mut u64,
    index: &mut u32,
    node: &mut u64,
) -> u32
    ensures { GivesName (next_name directory from volume.now) result at.new length.new index.new node.new }
{
    match lentilraft::next_name(volume, directory, from) {
        Ok(name) => {
            *at = name.at as u64;
            *length = name.long as u64;
            *index = name.index;
            *node = name.node;
            0
        }
        Err(error) => {
            *at = 0;
            *length = 0;
            *index = 0;
            *node = 0;
            u32::from(error)
        }
    }
}

// Searches a directory for a name from an index on, looking at no more than so many entries. Through lent places go 1 and the entry's index
// and node where it was found, 0 where no entry has the name, 2 and the index of the first entry that was not looked at; and how many were
// looked at. Each is 0 for a refusal.
pub fn lentilraft_search(
    volume: &[u8],
    directory: u64,
    name: &[u8],
    from: u32,
    most: u64,
    found: &mut u32,
    index: &mut u32,
    node: &mut u64,
    looked: &mut u64,
) -> u32
    ensures { GivesSearch (search directory name.now from most volume.now) result found.new index.new node.new looked.new }
{
    *found = ABSENT;
    *index = 0;
    *node = 0;
    *looked = 0;
    match lentilraft::search(volume, directory, name, from, most) {
        Ok(Search::Found(at, named, count)) => {
            *found = FOUND;
            *index = at;
            *node = named;
            *looked = count;
            0
        }
        Ok(Search::Absent(count)) => {
            *looked = count;
            0
        }
        Ok(Search::Stopped(at, count)) => {
            *found = STOPPED;
            *index = at;
            *looked = count;
            0
        }
        Err(error) => u32::from(error),
    }
}

// Makes a node of a type (0 a directory, 1 a regular file, 2 a symbolic link) and names it in a directory. The node goes through a lent
// place: 0 for a refusal.
pub fn lentilraft_create(
    volume: &mut [u8],
    parent: u64,
    name: &[u8],
    kind: u8,
    node: &mut u64,
) -> u32
    ensures { GivesCount (create parent name.now kind volume.old) result volume.new node.new }
{
    let answer = lentilraft::create(volume, parent, name, kind);
    *node = types::value(answer);
    types::number(answer)
}

// Names a file in a directory once more.
pub fn lentilraft_link(volume: &mut [u8], parent: u64, name: &[u8], target: u64) -> u32
    ensures { Gives (link parent name.now target volume.old) result volume.new }
{
    types::number(lentilraft::link(volume, parent, name, target))
}

// Takes the name that a path leads to out of its directory. Expected: 0 any kind, 1 a directory, 2 a file. The node goes through a lent place:
// 0 for a refusal.
pub fn lentilraft_unlink(
    volume: &mut [u8],
    start: u64,
    path: &[u8],
    expected: u8,
    opens: u64,
    node: &mut u64,
) -> u32
    ensures { GivesCount (unlink_byte start path.now expected opens volume.old) result volume.new node.new }
{
    let answer = lentilraft::unlink_byte(volume, start, path, expected, opens);
    *node = types::value(answer);
    types::number(answer)
}

// Frees the chunks of a node that has no name left, and takes it away.
pub fn lentilraft_remove(volume: &mut [u8], node: u64) -> u32
    ensures { Gives (remove node volume.old) result volume.new }
{
    types::number(lentilraft::remove(volume, node))
}
