// Rule 9: the sizes of the lent tables.
ghost use Rattle.std.specs.Prelude.{◌≡◌};
ghost use Rattle.tune.specs.Rules.{verdict};
ghost use Rattle.tune.specs.Sizes.{orders_fit, cells_fit, samples_fit, rule9};

use crate::rules::{Refusal, refuse_if};

// The tables that a call is lent: the orders, a pattern's 10,240 bytes of cells after the other, a sample's 20 bytes after the other.
#[derive(Clone, Copy)]
pub struct Tables<'a> {
    pub orders: &'a [u8],
    pub cells: &'a [u8],
    pub samples: &'a [u8],
}

fn orders_fit(n: usize) -> bool
    ensures { result ≡ orders_fit n }
{
    (1 <= n) & (n <= 255)
}

fn cells_fit(n: usize) -> bool
    ensures { result ≡ cells_fit n }
{
    (n % 10240 == 0) & (n <= 1024000)
}

fn samples_fit(n: usize) -> bool
    ensures { result ≡ samples_fit n }
{
    (n % 20 == 0) & (n <= 1980)
}

// Rule 9: a table has a size that it cannot have.
#[tactic(auto, unfolding(crate::specs::Sizes::rule9))]
pub fn check_sizes(t: Tables) -> Result<(), Refusal>
    ensures { verdict result ≡ rule9 t.entry.orders.now t.entry.cells.now t.entry.samples.now }
{
    let fit = orders_fit(t.orders.len()) & cells_fit(t.cells.len()) & samples_fit(t.samples.len());
    refuse_if(!fit, Refusal::Tables)
}
