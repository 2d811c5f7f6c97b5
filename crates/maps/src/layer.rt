// What every layer does to a fault from below.
ghost use Rattle.std.specs.Prelude.{◌≡◌};
ghost use Rattle.maps.specs.Layers.{deeper};

use points::Fault;

// The same fault, one layer deeper.
pub(crate) fn deeper(fault: Fault) -> Fault
    ensures { result ≡ deeper fault }
{
    Fault {
        depth: fault.depth.saturating_add(1),
        ..fault
    }
}
