// The form of the bytes. Nothing in them is trusted: no number read is used before it is tested.
ghost use Rattle.std.specs.Prelude.{◌≡◌, ℕ, Bool, ◌+◌, ◌*◌, ◌≤◌, ◌<◌, length};
ghost use Rattle.volume.specs.Layouts.{layout_in, place_if};
ghost use Rattle.volume.specs.Framed.{Headed};
ghost use Rattle.soundness.specs.FrameRules.{headed, marked, rows_formed, areas_formed};

use volume::Layout;

// The header's bytes: the allocator's words stand behind it.
const HEADER: usize = volume::ALLOCATOR;

// Where the areas start, if the header has the form, a geometry that fits the length, and used counts that fit the rooms.
pub fn read_header(volume: &[u8]) -> Option<Layout>
    ensures { result ≡ place_if (headed volume.now) (layout_in volume.now) }
{
    if volume.len() < HEADER {
        return None;
    }
    if words::get::<8>(volume, 0) != volume::FORM {
        return None;
    }
    let nodes = words::get::<8>(volume, volume::NODE_ROOM);
    let entries = words::get::<8>(volume, volume::ENTRY_ROOM);
    let chunks = words::get::<8>(volume, volume::CHUNK_ROOM);
    let place = volume::place_tables(nodes, entries, chunks, volume.len() as u64);
    if nodes < words::get::<8>(volume, volume::NODES_USED) {
        return None;
    }
    if entries < words::get::<8>(volume, volume::ENTRIES_USED) {
        return None;
    }
    if chunks < words::get::<8>(volume, volume::CHUNKS_USED) {
        return None;
    }
    place
}

// Whether the allocator's words have the marker, an accepted chunk size and a free count that fits. They are a part of the volume that
// starts in its middle: they end where the node rows begin.
fn is_marked(volume: &[u8], layout: Layout) -> bool
    requires { Headed volume.now × (layout ≡ layout_in volume.now) }
    ensures { result ≡ marked volume.now }
{
    let end = layout.nodes;
    allocator::is_marked(&volume[volume::ALLOCATOR..end])
}

// Whether the rows in use have the form that a test asks for, and the others are zero. The test is told where a row starts.
fn rows_formed<F: Fn(usize) -> bool>(
    volume: &[u8],
    base: usize,
    size: usize,
    used: usize,
    room: usize,
    formed: F,
) -> bool
    requires fits { (used ≤ room) × (base + size * room ≤ length volume.now) }
    requires asked { (i : ℕ) → i < used → F.pre formed (base + size * i) }
    ensures { (t : ℕ → Bool) → ((i : ℕ) (b : Bool) → i < used → F.post formed (base + size * i) b → b ≡ t (base + size * i)) → result ≡ rows_formed t size volume.now base used room }
{
    if !(0..used).all(|i| formed(base + size * i)) {
        return false;
    }
    let rest = base + size * used;
    let unused = size * (room - used);
    words::is_zero(&volume[rest..rest + unused])
}

// Whether the allocator's words and the rows of each table have their form. A chunk row in use may have any bytes: what they say is for the
// rules of the rows.
pub fn is_formed(volume: &[u8], layout: Layout) -> bool
    requires { Headed volume.now × (layout ≡ layout_in volume.now) }
    ensures { result ≡ areas_formed volume.now }
{
    if !is_marked(volume, layout) {
        return false;
    }
    let nodes = words::get::<8>(volume, volume::NODES_USED) as usize;
    let node_room = words::get::<8>(volume, volume::NODE_ROOM) as usize;
    if !rows_formed(
        volume,
        layout.nodes,
        volume::NODE_ROW,
        nodes,
        node_room,
        |at| volume::node_formed(volume, at),
    ) {
        return false;
    }
    let entries = words::get::<8>(volume, volume::ENTRIES_USED) as usize;
    let entry_room = words::get::<8>(volume, volume::ENTRY_ROOM) as usize;
    if !rows_formed(
        volume,
        layout.entries,
        volume::ENTRY_ROW,
        entries,
        entry_room,
        |at| volume::entry_formed(volume, at),
    ) {
        return false;
    }
    let chunks = words::get::<8>(volume, volume::CHUNKS_USED) as usize;
    let chunk_room = words::get::<8>(volume, volume::CHUNK_ROOM) as usize;
    rows_formed(
        volume,
        layout.chunks,
        volume::CHUNK_ROW,
        chunks,
        chunk_room,
        |_| true,
    )
}
