// The new numbers of gates.
ghost use Rattle.std.specs.Prelude.{◌≡◌, slice_index};
ghost use Rattle.vlog_text.specs.Orders.{renumbered};

use net_core::Wire;

/// The gate's place in the order, 0 where it has none.
pub fn place_of(places: &[u32], gate: usize) -> u32
    ensures { result ≡ slice_index places.now gate }
{
    match places.get(gate) {
        Some(place) => *place,
        None => 0,
    }
}

/// The wire, a gate by its place in the order.
pub fn renumber(places: &[u32], wire: Wire) -> Wire
    ensures { result ≡ renumbered (slice_index places.now) wire }
{
    match wire {
        Wire::Gate(gate) => Wire::Gate(place_of(places, gate as usize)),
        other => other,
    }
}
