// A step by powers that are handed over: for a fit that goes on from iteration to iteration, and does not work them out afresh.
ghost use Rattle.std.specs.Prelude.{◌≡◌, length};
ghost use Rattle.fit_adam.specs.Adam.{first_moment, second_moment, weight_moved, stepped};
ghost use Rattle.fit_adam.specs.Promises.{fit_from, TestsShape, Moves, StartsPowers, NextPowers, PowersOf};

use places::weight::Weight;
use refusal::Refusal;

const BETA1: f64 = 0.9;

const BETA2: f64 = 0.999;

const EPSILON: f64 = 1e-8;

// The powers of both decay constants.
#[derive(Clone, Copy)]
pub struct Powers {
    pub first: f64,
    pub second: f64,
}

pub fn start() -> Powers
    ensures { StartsPowers result }
{
    Powers {
        first: 1.0,
        second: 1.0,
    }
}

pub fn next(powers: Powers) -> Powers
    ensures { NextPowers powers result }
{
    Powers {
        first: powers.first * BETA1,
        second: powers.second * BETA2,
    }
}

pub fn powers_of(iteration: u64) -> Powers
    ensures { PowersOf iteration result }
{
    let mut first: f64 = 1.0;
    let mut second: f64 = 1.0;
    for _ in 0..iteration {
        first = first * BETA1;
        second = second * BETA2;
    }
    Powers { first, second }
}

fn first_moment(m: f64, g: f64) -> f64
    ensures { result ≡ first_moment m g }
{
    BETA1 * m + (1.0 - BETA1) * g
}

fn second_moment(v: f64, g: f64) -> f64
    ensures { result ≡ second_moment v g }
{
    BETA2 * v + (1.0 - BETA2) * g * g
}

fn moved_weight(powers: Powers, rate: f64, m: f64, v: f64, weight: f64) -> f64
    ensures { result ≡ weight_moved powers.first powers.second rate m v weight }
{
    let m_hat = m / (1.0 - powers.first);
    let v_hat = v / (1.0 - powers.second);
    weight - rate * m_hat / (fit_root::sqrt(v_hat) + EPSILON)
}

// Whether all four are 779 long: SHAPE, if not.
pub fn is_shaped(gradient: &[f64], m: &[f64], v: &[f64], weights: &[f64]) -> bool
    ensures { TestsShape gradient.now m.now v.now weights.now result }
{
    (gradient.len() == Weight::COUNT)
        & (m.len() == Weight::COUNT)
        & (v.len() == Weight::COUNT)
        & (weights.len() == Weight::COUNT)
}

// Every place from 1 on: place 0 is the pawn's.
fn walk(
    gradient: &[f64],
    m: &mut [f64],
    v: &mut [f64],
    weights: &mut [f64],
    powers: Powers,
    rate: f64,
)
    requires { (length gradient.now ≡ 779) × (length m.old ≡ 779) × (length v.old ≡ 779) × (length weights.old ≡ 779) }
    ensures { fit_from m.new v.new weights.new ≡ stepped powers.first powers.second rate gradient.now (fit_from m.old v.old weights.old) }
{
    for i in 1..Weight::COUNT {
        let g = gradient[i];
        let first = first_moment(m[i], g);
        let second = second_moment(v[i], g);
        let weight = moved_weight(powers, rate, first, second, weights[i]);
        m[i] = first;
        v[i] = second;
        weights[i] = weight;
    }
}

// A step by any two powers. SHAPE.
pub fn moved(
    gradient: &[f64],
    m: &mut [f64],
    v: &mut [f64],
    weights: &mut [f64],
    powers: Powers,
    rate: f64,
) -> Result<(), Refusal>
    ensures { Moves gradient.now m.old v.old weights.old powers rate result m.new v.new weights.new }
{
    if !is_shaped(gradient, m, v, weights) {
        return Err(Refusal::Shape);
    }
    walk(gradient, m, v, weights, powers, rate);
    Ok(())
}
