// Pattern loops and jumps.
ghost use Rattle.std.specs.Prelude.{◌≡◌};
ghost use Rattle.row_path.specs.Loops.{scoped, jump_of, again, requested, looped};
ghost use Rattle.row_path.specs.Loops as spec;

#[derive(Clone, Copy)]
pub struct Place {
    pub order: u8,
    pub row: u8,
}

// The order that the loop belongs to, the row it goes back to, and how often it still does.
#[derive(Clone, Copy)]
pub struct PatternLoop {
    pub order: Option<u8>,
    pub start_row: u8,
    pub count: Option<u8>,
}

// Where a row jumps to: an order, the next one where it is absent, and a row.
#[derive(Clone, Copy)]
pub struct Jump {
    pub order: Option<u8>,
    pub row: u8,
}

#[derive(Clone, Copy)]
pub struct Looped {
    pub pattern_loop: PatternLoop,
    pub jump: Option<Jump>,
}

// The loop at an order: a new one where the order is not the loop's.
#[tactic(auto, unfolding(crate::specs::Loops::scoped))]
pub fn scope(l: PatternLoop, order: u8) -> PatternLoop
    ensures { result ≡ scoped l order }
{
    if l.order == Some(order) {
        return l;
    }
    PatternLoop {
        order: Some(order),
        start_row: 0,
        count: None,
    }
}

pub fn jump_of(row: Option<u8>, order: Option<u8>) -> Option<Jump>
    ensures { result ≡ jump_of row order }
{
    match (row, order) {
        (Some(row), _) => Some(Jump { order, row }),
        (None, Some(_)) => Some(Jump { order, row: 0 }),
        (None, None) => None,
    }
}

fn turns(p: u8, count: Option<u8>) -> u8
    ensures { result ≡ spec.turns p count }
{
    match count {
        None => p,
        Some(n) => n.saturating_sub(1),
    }
}

#[tactic(auto, unfolding(crate::specs::Loops::again))]
fn go_again(m: u8, at: Place, l: PatternLoop, j: Option<Jump>) -> Looped
    ensures { result ≡ again m at l j }
{
    if m == 0 {
        return Looped {
            pattern_loop: PatternLoop { count: None, ..l },
            jump: j,
        };
    }
    let back = Jump {
        order: Some(at.order),
        row: l.start_row,
    };
    Looped {
        pattern_loop: PatternLoop {
            count: Some(m),
            ..l
        },
        jump: Some(back),
    }
}

#[tactic(auto, unfolding(crate::specs::Loops::requested))]
fn request(p: u8, at: Place, l: PatternLoop, j: Option<Jump>) -> Looped
    ensures { result ≡ requested p at l j }
{
    if p == 0 {
        return Looped {
            pattern_loop: PatternLoop {
                start_row: at.row,
                ..l
            },
            jump: j,
        };
    }
    go_again(turns(p, l.count), at, l, j)
}

// The loop and the jump behind a row's loop request.
#[tactic(auto, unfolding(crate::specs::Loops::looped))]
pub fn resolve(asked: Option<u8>, at: Place, l: PatternLoop, j: Option<Jump>) -> Looped
    ensures { result ≡ looped asked at l j }
{
    match asked {
        None => Looped {
            pattern_loop: l,
            jump: j,
        },
        Some(p) => request(p, at, l, j),
    }
}
