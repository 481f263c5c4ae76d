// Orders: the next one, skipping 0xFE, and the pattern that one names.
ghost use Rattle.std.specs.Prelude.{◌≡◌, ◌≤◌, length};
ghost use Rattle.row_path.specs.Orders.{next_order, skipped, pattern_at};

// The two bytes of the list that name no pattern.
const SKIPPED: u8 = 0xFE;

const END: u8 = 0xFF;

pub fn next_order(order: u8) -> u8
    ensures { result ≡ next_order order }
{
    order.saturating_add(1)
}

// The first order from `order` on that is no 0xFE, or the list's end.
#[tactic(auto, using(crate::proofs::Steps::skip_more, crate::proofs::Steps::skip_stop, crate::proofs::Steps::skip_end))]
pub fn skip(orders: &[u8], order: u8) -> u8
    requires { length orders.now ≤ 255 }
    ensures { result ≡ skipped orders.now order }
{
    for at in usize::from(order)..orders.len() {
        if orders[at] != SKIPPED {
            return at as u8;
        }
    }
    order.max(orders.len() as u8)
}

// The pattern of an order, of so many patterns.
#[tactic(auto, unfolding(crate::specs::Orders::pattern_at))]
pub fn pattern_at(orders: &[u8], patterns: usize, order: u8) -> Option<u8>
    ensures { result ≡ pattern_at orders.now patterns order }
{
    match orders.get(usize::from(order)) {
        Some(&v) if v != END && usize::from(v) < patterns => Some(v),
        _ => None,
    }
}
