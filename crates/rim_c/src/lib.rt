// The calls of `rim`, exported for programs in C or Rust under the same names. Each export calls rim's function and makes its promise again.
#![tactic(auto)]

ghost use Rattle.std.specs.Prelude.{◌≡◌};
ghost use Rattle.types.specs.Answers.{number};
ghost use Rattle.allocator.specs.Opening.{opened};
ghost use Rattle.volume.specs.Fresh.{new_volume};
ghost use Rattle.lentilraft.specs.Door.{check, set_chunk_size, set_limit, read, resize, write, find_node, search, create, link, unlink_byte, remove};
ghost use Rattle.lentilraft.specs.EntryGiven.{next_name};
ghost use Rattle.lentilraft.specs.Report.{report};
ghost use Rattle.rim.specs.Given.{Gives, GivesCount, GivesValue, GivesName, GivesSearch};

// Makes the memory a new volume with these rooms and this chunk size.
#[unsafe(no_mangle)]
pub extern "C" fn lentilraft_new_volume(
    volume: &mut [u8],
    nodes: u64,
    entries: u64,
    chunks: u64,
    span: u64,
) -> u32
    ensures { Gives (new_volume nodes entries chunks span volume.old) result volume.new }
{
    rim::lentilraft_new_volume(volume, nodes, entries, chunks, span)
}

// Whether the memory is a sound volume: 0, or 1.
#[unsafe(no_mangle)]
pub extern "C" fn lentilraft_check(volume: &[u8]) -> u32
    ensures { result ≡ number (check volume.now) }
{
    rim::lentilraft_check(volume)
}

// Opens an allocator's words that stand by themselves, and brings an older form up to date.
#[unsafe(no_mangle)]
pub extern "C" fn lentilraft_open_allocator(words: &mut [u8]) -> u32
    ensures { Gives (opened words.old) result words.new }
{
    rim::lentilraft_open_allocator(words)
}

// Sets the chunk size; another one only if no pointer was ever given out.
#[unsafe(no_mangle)]
pub extern "C" fn lentilraft_set_chunk_size(volume: &mut [u8], span: u64) -> u32
    ensures { Gives (set_chunk_size span volume.old) result volume.new }
{
    rim::lentilraft_set_chunk_size(volume, span)
}

// Reads a file's bytes from an offset on. The count goes through a lent place: 0 for a refusal.
#[unsafe(no_mangle)]
pub extern "C" fn lentilraft_read(
    volume: &[u8],
    node: u64,
    offset: u64,
    buffer: &mut [u8],
    count: &mut u64,
) -> u32
    ensures { GivesCount (read node offset volume.now buffer.old) result buffer.new count.new }
{
    rim::lentilraft_read(volume, node, offset, buffer, count)
}

// Puts the report's text at the front of the output. The count goes through a lent place: 0 for a refusal.
#[unsafe(no_mangle)]
pub extern "C" fn lentilraft_report(volume: &[u8], out: &mut [u8], count: &mut u64) -> u32
    ensures { GivesCount (report volume.now out.old) result out.new count.new }
{
    rim::lentilraft_report(volume, out, count)
}

// Sets a file's limit.
#[unsafe(no_mangle)]
pub extern "C" fn lentilraft_set_limit(volume: &mut [u8], node: u64, limit: u64) -> u32
    ensures { Gives (set_limit node (Some limit) volume.old) result volume.new }
{
    rim::lentilraft_set_limit(volume, node, limit)
}

// Takes a file's limit away.
#[unsafe(no_mangle)]
pub extern "C" fn lentilraft_clear_limit(volume: &mut [u8], node: u64) -> u32
    ensures { Gives (set_limit node None volume.old) result volume.new }
{
    rim::lentilraft_clear_limit(volume, node)
}

// Gives a file another size. What it gains reads zero.
#[unsafe(no_mangle)]
pub extern "C" fn lentilraft_resize_file(volume: &mut [u8], node: u64, size: u64) -> u32
    ensures { Gives (resize node size volume.old) result volume.new }
{
    rim::lentilraft_resize_file(volume, node, size)
}

// Writes bytes into a file from an offset on. The count goes through a lent place: 0 for a refusal.
#[unsafe(no_mangle)]
pub extern "C" fn lentilraft_write(
    volume: &mut [u8],
    node: u64,
    offset: u64,
    bytes: &[u8],
    count: &mut u64,
) -> u32
    ensures { GivesCount (write node offset bytes.now volume.old) result volume.new count.new }
{
    rim::lentilraft_write(volume, node, offset, bytes, count)
}

// Finds the node that a path leads to from a start. The node goes through a lent place: 0 for a refusal.
#[unsafe(no_mangle)]
pub extern "C" fn lentilraft_find_node(
    volume: &[u8],
    start: u64,
    path: &[u8],
    node: &mut u64,
) -> u32
    ensures { GivesValue (find_node start path.now volume.now) result node.new }
{
    rim::lentilraft_find_node(volume, start, path, node)
}

// Finds the entry of a directory with the least index at or above one: where its name stands in the volume, how long it is, its index and
// its node go through lent places, each 0 for a refusal.
#[unsafe(no_mangle)]
pub extern "C" fn lentilraft_next_entry(
    volume: &[u8],
    directory: u64,
    from: u32,
    at: &mut u64,
    length: &mut u64,
    index: &mut u32,
    node: &mut u64,
) -> u32
    ensures { GivesName (next_name directory from volume.now) result at.new length.new index.new node.new }
{
    rim::lentilraft_next_entry(volume, directory, from, at, length, index, node)
}

// Searches a directory for a name from an index on, looking at no more than so many entries. Through lent places go 1 and the entry's index
// and node where it was found, 0 where no entry has the name, 2 and the index of the first entry that was not looked at; and how many were
// looked at. Each is 0 for a refusal.
#[unsafe(no_mangle)]
pub extern "C" fn lentilraft_search(
    volume: &[u8],
    directory: u64,
    name: &[u8],
    from: u32,
    most: u64,
    found: &mut u32,
    index: &mut u32,
    node: &mut u64,
    looked: &mut u64,
) -> u32
    ensures { GivesSearch (search directory name.now from most volume.now) result found.new index.new node.new looked.new }
{
    rim::lentilraft_search(
        volume, directory, name, from, most, found, index, node, looked,
    )
}

// Makes a node of a type (0 a directory, 1 a regular file, 2 a symbolic link) and names it in a directory. The node goes through a lent
// place: 0 for a refusal.
#[unsafe(no_mangle)]
pub extern "C" fn lentilraft_create(
    volume: &mut [u8],
    parent: u64,
    name: &[u8],
    kind: u8,
    node: &mut u64,
) -> u32
    ensures { GivesCount (create parent name.now kind volume.old) result volume.new node.new }
{
    rim::lentilraft_create(volume, parent, name, kind, node)
}

// Names a file in a directory once more.
#[unsafe(no_mangle)]
pub extern "C" fn lentilraft_link(volume: &mut [u8], parent: u64, name: &[u8], target: u64) -> u32
    ensures { Gives (link parent name.now target volume.old) result volume.new }
{
    rim::lentilraft_link(volume, parent, name, target)
}

// Takes the name that a path leads to out of its directory. Expected: 0 any kind, 1 a directory, 2 a file. The node goes through a lent place:
// 0 for a refusal.
#[unsafe(no_mangle)]
pub extern "C" fn lentilraft_unlink(
    volume: &mut [u8],
    start: u64,
    path: &[u8],
    expected: u8,
    opens: u64,
    node: &mut u64,
) -> u32
    ensures { GivesCount (unlink_byte start path.now expected opens volume.old) result volume.new node.new }
{
    rim::lentilraft_unlink(volume, start, path, expected, opens, node)
}

// Frees the chunks of a node that has no name left, and takes it away.
#[unsafe(no_mangle)]
pub extern "C" fn lentilraft_remove(volume: &mut [u8], node: u64) -> u32
    ensures { Gives (remove node volume.old) result volume.new }
{
    rim::lentilraft_remove(volume, node)
}
