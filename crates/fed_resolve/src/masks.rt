// Auth chains of several groups of events, found by one walk: a word for each place, and in it a bit for each group.
ghost use Rattle.std.specs.Prelude.{◌≡◌, ◌<◌, ℕ, All, length};
ghost use Rattle.fed_resolve.specs.Chain.{auths_at};
ghost use Rattle.fed_resolve.specs.ChainParts.{AreClosedFrom};
ghost use Rattle.fed_resolve.specs.Order.{is_among};
ghost use Rattle.fed_resolve.specs.MaskParts.{AreMasked, bit_marks, is_auth_of};

use fed_room_contract::Graph;

// How many groups one walk tells apart: a word has a bit for each.
pub(crate) const GROUPS: usize = 64;

// Adds bits to the words of the auth events of the events at these places.
pub(crate) fn mask_auths_of(graph: &Graph, places: &[usize], bits: u64, masks: &mut [u64])
    requires places { All (λ place. place < length graph.now.stored) places.now }
    requires long { length masks.old ≡ length graph.now.stored }
    ensures { AreMasked (length graph.now.stored) (is_auth_of graph.now.stored places.now) bits masks.old masks.new }
{
    for place in places {
        mask_auths(graph, *place, bits, masks);
    }
}

// Adds to the words of the places that come before, down from the last place to one, the bits of all those in whose auth chain they are.
pub(crate) fn carry_down(graph: &Graph, to: usize, masks: &mut [u64])
    requires { length masks.old ≡ length graph.now.stored }
    ensures { (bit : ℕ) → AreClosedFrom graph.now.stored to (bit_marks bit masks.old) (bit_marks bit masks.new) }
{
    for place in (to..graph.events().len()).rev() {
        let bits = masks[place];
        if bits != 0 {
            mask_auths(graph, place, bits, masks);
        }
    }
}

// Adds bits to the words of the auth events of the event at a place.
pub(crate) fn mask_auths(graph: &Graph, place: usize, bits: u64, masks: &mut [u64])
    requires { length masks.old ≡ length graph.now.stored }
    ensures { AreMasked (length graph.now.stored) (is_among (auths_at graph.now.stored place)) bits masks.old masks.new }
{
    for auth in graph.auth_places(place) {
        masks[*auth] |= bits;
    }
}
