// The header of a volume that is laid out, changed.
#![tactic(auto, using(crate::proofs::ReadyVolume::inside))]

ghost use Rattle.std.specs.Prelude.{◌≡◌};
ghost use Rattle.volume.specs.Volume.{shown, laid, with_next_node, on_names};
ghost use Rattle.tables.specs.Tables.{Ready};

use volume::Layout;

// Sets the number that the next node made gets.
pub fn set_next_node(volume: &mut [u8], layout: Layout, next: u64)
    requires { Ready volume.old layout }
    ensures { volume.new ≡ laid (on_names (with_next_node next) (shown volume.old)) }
{
    words::put::<8>(volume, volume::NEXT_NODE, next);
}
