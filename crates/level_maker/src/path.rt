// Paths through the made levels.
ghost use Rattle.std.specs.Prelude.{◌≡◌, ◌<◌, ◌≤◌, ◌++◌, ◌*◌, ◌^◌, IfOk, OnOk, decimal};
ghost use Rattle.level_maker.specs.Rules.{made_path, made_path_row, path_angle, path_place, records};

use itoa::Buffer;
use made_rules::{
    ANGLE_STEP, EAST_ROOMS, EAST_STEPS, FREE_STEPS, MAX_NUMBER, NORTH_ROOMS, NORTH_STEPS,
    ROOM_SIZE, VIEWS_PER_NUMBER, WALL_DISTANCE,
};
use std::alloc::{AllocError, Global};
use view_rules::ONE;

/// The bytes of the path of number n: its header and 3 n rows, points in 16.16 map units and angles
/// (BAM).
///
/// Errors: `OutOfMemory` alone.
///
/// This project's own: the original has no such file.
#[tactic(auto, unfolding(made_rules::specs::Texts::made_path))]
pub fn make_path(alloc: Global, n: u32) -> Result<Vec<u8>, AllocError>
    requires least { 1 ≤ n }
    requires most { n ≤ MAX_NUMBER }
    ensures { IfOk result (λ file. file.items ≡ made_path n) }
{
    let mut file = Vec::from_slice(alloc, b"x,y,z,angle\n")?;
    put_rows(&mut file, n)?;
    Ok(file)
}

#[tactic(auto, using(made_rules::proofs::BytesLemmas::filling))]
fn put_rows(file: &mut Vec<u8>, n: u32) -> Result<(), AllocError>
    requires least { 1 ≤ n }
    requires most { n ≤ MAX_NUMBER }
    ensures { OnOk result (file.new.items ≡ file.old.items ++ records (made_path_row n)
        (VIEWS_PER_NUMBER * n)) }
{
    for k in 0..VIEWS_PER_NUMBER * n {
        put_row(file, n, k)?;
    }
    Ok(())
}

#[tactic(auto, unfolding(made_rules::specs::Texts::made_path_row))]
fn put_row(file: &mut Vec<u8>, n: u32, k: u32) -> Result<(), AllocError>
    requires least { 1 ≤ n }
    requires most { n ≤ MAX_NUMBER }
    requires view { k < VIEWS_PER_NUMBER * MAX_NUMBER }
    ensures { OnOk result (file.new.items ≡ file.old.items ++ made_path_row n k) }
{
    put_number(file, place(n, EAST_ROOMS, EAST_STEPS, k), b",")?;
    put_number(file, place(n, NORTH_ROOMS, NORTH_STEPS, k), b",4718592,")?;
    put_number(file, angle(k), b"\n")
}

// Puts a number in decimal digits, and what stands behind it.
fn put_number(file: &mut Vec<u8>, number: u32, end: &[u8]) -> Result<(), AllocError>
    ensures { OnOk result (file.new.items ≡ file.old.items ++ decimal number ++ end.now) }
{
    let mut buffer = Buffer::new();
    file.extend_from_slice(buffer.format(number).as_bytes())?;
    file.extend_from_slice(end)
}

// Where a view stands, west to east or south to north, map units in 16.16.
#[tactic(auto, unfolding(made_rules::specs::Texts::path_place))]
fn place(n: u32, rooms: u32, steps: u32, k: u32) -> u32
    requires least { 1 ≤ n }
    requires most { n ≤ MAX_NUMBER }
    requires rooms { rooms < 2 ^ 8 }
    requires steps { steps < 2 ^ 8 }
    requires view { k < VIEWS_PER_NUMBER * MAX_NUMBER }
    ensures { result ≡ path_place n rooms steps k }
{
    (ROOM_SIZE * (rooms * k % n) + WALL_DISTANCE + steps * k % FREE_STEPS) * ONE
}

// Where a view looks.
#[tactic(auto, unfolding(made_rules::specs::Texts::path_angle))]
fn angle(k: u32) -> u32
    requires { k < VIEWS_PER_NUMBER * MAX_NUMBER }
    ensures { result ≡ path_angle k }
{
    k.wrapping_mul(ANGLE_STEP)
}
