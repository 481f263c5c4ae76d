// Fine slides: one product with a factor.
ghost use Rattle.std.specs.Prelude.{◌≡◌, ◌<◌, ◌≤◌, leb};
ghost use Rattle.laws.specs.Choice.{pick};
ghost use Rattle.pitch.specs.Slides.{factor_of, factor_number, slid};

use tune::numbers::low_nibble;

const FACTORS: [f32; 64] = [
    1.0,
    0.9990978837013245,
    0.998196542263031,
    0.9972960352897644,
    0.9963963627815247,
    0.995497465133667,
    0.9945994019508362,
    0.9937021732330322,
    0.9928057193756104,
    0.9919100999832153,
    0.9910152554512024,
    0.9901212453842163,
    0.9892280101776123,
    0.9883356094360352,
    0.9874439835548401,
    0.9865531921386719,
    1.0,
    0.9997743964195251,
    0.9995488524436951,
    0.999323308467865,
    0.9990978837013245,
    0.9988724589347839,
    0.9986470937728882,
    0.9984217882156372,
    0.998196542263031,
    0.9979713559150696,
    0.9977462291717529,
    0.9975211024284363,
    0.9972960352897644,
    0.9970710873603821,
    0.9968461394309998,
    0.9966211915016174,
    1.0,
    1.0009028911590576,
    1.0018067359924316,
    1.002711296081543,
    1.0036166906356812,
    1.0045229196548462,
    1.0054298639297485,
    1.0063377618789673,
    1.0072463750839233,
    1.0081559419631958,
    1.0090662240982056,
    1.0099773406982422,
    1.0108892917633057,
    1.011802077293396,
    1.0127156972885132,
    1.0136300325393677,
    1.0,
    1.0002256631851196,
    1.0004513263702393,
    1.0006771087646484,
    1.0009028911590576,
    1.0011287927627563,
    1.001354694366455,
    1.0015807151794434,
    1.0018067359924316,
    1.00203275680542,
    1.0022588968276978,
    1.0024850368499756,
    1.002711296081543,
    1.0029375553131104,
    1.0031638145446777,
    1.0033901929855347,
];

#[tactic(auto, unfolding(crate::specs::Slides::factor_of))]
fn factor(i: usize) -> f32
    requires { i < 64 }
    ensures { result ≡ factor_of i }
{
    FACTORS[i]
}

// The first factor's number for F (up) and for E (down): a half of the table, and no other step.
fn group(up: bool) -> usize
    ensures { (result ≡ pick up 32 0) × (result ≤ 32) }
{
    if up { 32 } else { 0 }
}

// How far behind it the factors of 0xE0 up begin.
fn half(info: u8) -> usize
    ensures value { result ≡ pick (leb 0xF0 info) 0 16 }
    ensures within { result ≤ 16 }
{
    if 0xF0 <= info { 0 } else { 16 }
}

// The factor's number for E (down) or F (up).
fn factor_number(up: bool, info: u8) -> usize
    ensures { (result ≡ factor_number up info) × (result < 64) }
{
    group(up) + half(info) + low_nibble(info) as usize
}

// A frequency slid by a fine E (down) or F (up).
#[tactic(auto, unfolding(crate::specs::Slides::slid))]
pub fn fine_slide(x: f32, up: bool, info: u8) -> f32
    ensures { result ≡ slid x (factor_number up info) }
{
    x * factor(factor_number(up, info))
}
