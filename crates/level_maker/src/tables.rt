// The angle tables by formula.
ghost use Rattle.std.specs.Prelude.{◌≡◌, ◌<◌, ◌≤◌, ◌++◌, ◌*◌, ◌+◌, ◌^◌, IfOk, OnOk, count_by, nat_lt, length};
ghost use Rattle.level_maker.specs.Rules.{angle_bytes, half_sine, listed, made_angle, made_sine, made_tables, made_tangent, records, sine_product, upper_tangent};
ghost use Rattle.level_maker.specs.Curves.{curve_bytes, curve_length};

use crate::bytes::put_word;
use made_rules::{SINES, SLOPE_STEP, SLOPES, TANGENTS};
use std::alloc::{AllocError, Global};
use view_rules::{HALF_STEPS, HALF_TURN, ONE, QUARTER};
use word_rules::FINE_SHIFT;

const FIVE_SQUARES: u64 = 5 * (HALF_STEPS as u64) * (HALF_STEPS as u64);

// The tables that have a formula for each entry.
#[derive(Clone, Copy)]
enum Curve {
    Sine,
    Tangent,
}

/// The bytes of the made tables file: 10240 sines and 4096 tangents in 16.16, and 2049 angles.
///
/// Errors: `OutOfMemory` alone.
///
/// This project's own: the fractions that stand for the original's tables, with whole numbers alone.
#[tactic(auto, unfolding(made_rules::specs::Tables::made_tables))]
pub fn make_tables(alloc: Global) -> Result<Vec<u8>, AllocError>
    ensures { IfOk result (λ file. file.items ≡ made_tables) }
{
    let mut file = Vec::new(alloc);
    put_curve(&mut file, Curve::Sine, SINES)?;
    put_curve(&mut file, Curve::Tangent, TANGENTS)?;
    put_angles(alloc, &mut file)?;
    Ok(file)
}

// The entries of a curve, up to a number.
#[tactic(auto, using(made_rules::proofs::BytesLemmas::filling))]
fn put_curve(file: &mut Vec<u8>, curve: Curve, count: u32) -> Result<(), AllocError>
    requires { count ≤ curve_length curve }
    ensures { OnOk result (file.new.items ≡ file.old.items ++ records (curve_bytes curve) count) }
{
    for i in 0..count {
        put_entry(file, curve, i)?;
    }
    Ok(())
}

#[tactic(auto, unfolding(made_rules::specs::Tables::sine_bytes, made_rules::specs::Tables::tangent_bytes))]
fn put_entry(file: &mut Vec<u8>, curve: Curve, i: u32) -> Result<(), AllocError>
    requires { i < curve_length curve }
    ensures { OnOk result (file.new.items ≡ file.old.items ++ curve_bytes curve i) }
{
    match curve {
        Curve::Sine => put_word(file, sine(i).cast_unsigned()),
        Curve::Tangent => put_word(file, tangent(i).cast_unsigned()),
    }
}

fn put_angles(alloc: Global, file: &mut Vec<u8>) -> Result<(), AllocError>
    ensures { OnOk result (file.new.items ≡ file.old.items ++ records angle_bytes SLOPES) }
{
    let tangents = upper_tangents(alloc)?;
    put_slopes(file, &tangents)
}

#[tactic(auto, using(made_rules::proofs::BytesLemmas::filling))]
fn put_slopes(file: &mut Vec<u8>, tangents: &[u32]) -> Result<(), AllocError>
    requires { tangents.now ≡ listed upper_tangent QUARTER }
    ensures { OnOk result (file.new.items ≡ file.old.items ++ records angle_bytes SLOPES) }
{
    for i in 0..SLOPES {
        put_angle(file, tangents, i)?;
    }
    Ok(())
}

#[tactic(auto, unfolding(made_rules::specs::Tables::angle_bytes))]
fn put_angle(file: &mut Vec<u8>, tangents: &[u32], i: u32) -> Result<(), AllocError>
    requires table { tangents.now ≡ listed upper_tangent QUARTER }
    requires slope { i < SLOPES }
    ensures { OnOk result (file.new.items ≡ file.old.items ++ angle_bytes i) }
{
    put_word(file, slope_angle(tangents, i))
}

// The angle of slope i, a step for each tangent below it.
#[tactic(auto, using(word_rules::proofs::ListedLemmas::listing), unfolding(made_rules::specs::Tables::made_angle))]
fn slope_angle(tangents: &[u32], i: u32) -> u32
    requires table { tangents.now ≡ listed upper_tangent QUARTER }
    requires slope { i < SLOPES }
    ensures { result ≡ made_angle i }
{
    count_below(tangents, SLOPE_STEP * i) << FINE_SHIFT
}

fn count_below(tangents: &[u32], limit: u32) -> u32
    requires { length tangents.now ≤ QUARTER }
    ensures count { result ≡ count_by (λ tangent. nat_lt tangent limit) tangents.now }
    ensures most { result ≤ QUARTER }
{
    tangents.iter().filter(|tangent| **tangent < limit).count() as u32
}

#[tactic(auto, using(word_rules::proofs::ListedLemmas::listing))]
fn upper_tangents(alloc: Global) -> Result<Vec<u32>, AllocError>
    ensures { IfOk result (λ tangents. tangents.items ≡ listed upper_tangent QUARTER) }
{
    let mut tangents = Vec::with_capacity(alloc, QUARTER as usize)?;
    for j in 0..QUARTER {
        tangents.push(upper_tangent(j))?;
    }
    Ok(tangents)
}

// The sine of a fine angle, 16.16 fixed point.
#[tactic(auto, unfolding(view_rules::specs::Formulas::made_sine))]
fn sine(i: u32) -> i32
    requires { i < SINES }
    ensures { result ≡ made_sine i }
{
    let size = half_sine(i % HALF_TURN) as i32;
    if i % (2 * HALF_TURN) < HALF_TURN {
        size
    } else {
        -size
    }
}

// Entry i of the tangents, 16.16 fixed point.
#[tactic(auto, unfolding(view_rules::specs::Formulas::made_tangent))]
fn tangent(i: u32) -> i32
    requires { i < TANGENTS }
    ensures { result ≡ made_tangent i }
{
    if i < QUARTER {
        -(upper_tangent(QUARTER - 1 - i) as i32)
    } else {
        upper_tangent(i - QUARTER) as i32
    }
}

// The tangent of fine angle j, below a quarter of a turn: sine by cosine.
#[tactic(auto, using(made_rules::proofs::TableLemmas::table_bounds), unfolding(view_rules::specs::Formulas::upper_tangent))]
fn upper_tangent(j: u32) -> u32
    requires { j < QUARTER }
    ensures value { result ≡ upper_tangent j }
    ensures most { result ≤ 2 ^ 28 }
{
    (half_sine(j) as u64 * ONE as u64 / half_sine(j + QUARTER) as u64) as u32
}

// The sine of fine angle i of the first half turn.
#[tactic(auto, using(made_rules::proofs::TableLemmas::table_bounds), unfolding(view_rules::specs::Formulas::half_sine))]
fn half_sine(i: u32) -> u32
    requires { i < HALF_TURN }
    ensures value { result ≡ half_sine i }
    ensures most { result ≤ 65536 }
    ensures least { 25 ≤ result }
{
    let product = sine_product(i) as u64;
    (ONE as u64 * 16 * product / (FIVE_SQUARES - 4 * product)) as u32
}

// The product of the distances to both ends of the half turn, in half steps of a fine angle.
#[tactic(auto, using(made_rules::proofs::TableLemmas::table_bounds), unfolding(view_rules::specs::Formulas::sine_product))]
fn sine_product(i: u32) -> u32
    requires { i < HALF_TURN }
    ensures value { result ≡ sine_product i }
    ensures least { 8191 ≤ result }
    ensures most { result ≤ 2 ^ 24 }
{
    let low = 2 * i + 1;
    low * (HALF_STEPS - low)
}
