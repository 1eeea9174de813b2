// The allocator of a volume that is laid out, changed. Its words are a part of the volume that starts in its middle and ends where the node
// rows begin.
#![tactic(auto, using(crate::proofs::ReadyVolume::inside))]

ghost use Rattle.std.specs.Prelude.{◌≡◌, ◌+◌, ◌<◌};
ghost use Rattle.allocator.specs.Allocator.{allocate, release, set_chunk_size};
ghost use Rattle.volume.specs.Volume.{shown, laid, with_allocator, on_store};
ghost use Rattle.tables.specs.Tables.{Ready};

use types::Error;
use volume::Layout;

// Gives a pointer out: the one last freed, else a new one.
pub fn allocate(volume: &mut [u8], layout: Layout) -> u64
    requires { Ready volume.old layout × ((shown volume.old).store.allocator.free_count ≡ 0 → (shown volume.old).store.allocator.next_ptr + (shown volume.old).store.allocator.chunk_size < 18446744073709551616) }
    ensures { (result ≡ (allocate (shown volume.old).store.allocator).pointer) × (volume.new ≡ laid (on_store (with_allocator (allocate (shown volume.old).store.allocator).after) (shown volume.old))) }
{
    let end = layout.nodes;
    allocator::allocate(&mut volume[volume::ALLOCATOR..end])
}

// Takes a pointer back.
pub fn free(volume: &mut [u8], layout: Layout, pointer: u64)
    requires { Ready volume.old layout × ((shown volume.old).store.allocator.free_count < (shown volume.old).store.chunk_room) }
    ensures { volume.new ≡ laid (on_store (with_allocator (release pointer (shown volume.old).store.allocator)) (shown volume.old)) }
{
    let end = layout.nodes;
    allocator::free(&mut volume[volume::ALLOCATOR..end], pointer);
}

// Sets the chunk size; another one only if no pointer was ever given out.
pub fn set_chunk_size(volume: &mut [u8], layout: Layout, span: u64) -> Result<u64, Error>
    requires { Ready volume.old layout }
    ensures { (result ≡ (set_chunk_size span (shown volume.old).store.allocator).answer) × (volume.new ≡ laid (on_store (with_allocator (set_chunk_size span (shown volume.old).store.allocator).after) (shown volume.old))) }
{
    let end = layout.nodes;
    allocator::set_chunk_size(&mut volume[volume::ALLOCATOR..end], span)
}
