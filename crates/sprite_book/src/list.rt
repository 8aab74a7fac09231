// The frames of a book, and the lumps of their shapes.
ghost use Rattle.std.specs.Prelude.{◌≡◌, ◌<◌, ◌++◌, ◌∷◌, [], map, is_some, slice_get, None, IfOk, OnOk};
ghost use Rattle.std.specs.List.{position_from};
ghost use Rattle.art_rules.specs.Words.{book_lumps, is_frame, picked};
ghost use Rattle.sprite_book.specs.Indexes.{IsPlaceOf, ArePictures};

use crate::mentions::Letters;
use crate::{Frame, Need, Shape};
use art_rules::OutOfMemory;
use lump_cache::LumpNo;
use std::alloc::Global;
use std::collections::BTreeMap;

/// Frames in the order in which they were added, and the place of each.
#[derive(Drop)]
pub struct FrameList {
    pub frames: Vec<Frame>,
    pub index: BTreeMap<(Letters, u8), usize>,
}

impl FrameList {
    // No frame.
    pub fn new(alloc: Global) -> FrameList
        ensures empty { result.frames.items ≡ [] }
        ensures placed { IsPlaceOf result.index result.frames.items }
    {
        FrameList {
            frames: Vec::new(alloc),
            index: BTreeMap::new(alloc),
        }
    }

    // Whether the needed frame is there.
    pub fn has(&self, need: &Need) -> bool
        requires { IsPlaceOf self.now.index self.now.frames.items }
        ensures { result ≡ is_some
            (position_from (is_frame need.now.sprite need.now.frame) 0 self.now.frames.items) }
    {
        self.index.get(&(need.sprite, need.frame)).is_some()
    }

    // Adds a frame behind the others.
    pub fn add(&mut self, frame: Frame) -> Result<(), OutOfMemory>
        requires placed { IsPlaceOf self.old.index self.old.frames.items }
        requires absent { position_from (is_frame frame.sprite frame.frame) 0 self.old.frames.items
            ≡ None }
        ensures frames { OnOk result (self.new.frames.items ≡ self.old.frames.items ++ frame ∷ []) }
        ensures placed { OnOk result (IsPlaceOf self.new.index self.new.frames.items) }
    {
        let place = self.frames.len();
        let sprite = frame.sprite;
        self.index.insert((sprite, frame.frame), place)?;
        self.frames.push(frame)?;
        Ok(())
    }

    // The shape of a frame from a rotation.
    pub fn pick(&self, sprite: Letters, frame: u8, rotation: u8) -> Option<Shape>
        requires { IsPlaceOf self.now.index self.now.frames.items }
        ensures { result ≡ picked self.now.frames.items sprite frame rotation }
    {
        match self.index.get(&(sprite, frame)) {
            Some(place) => shape_at(&self.frames[*place].shapes, rotation),
            None => None,
        }
    }
}

// The shape from a rotation.
fn shape_at(shapes: &[Shape], rotation: u8) -> Option<Shape>
    ensures { result ≡ slice_get shapes.now rotation }
{
    shapes.get(rotation as usize).copied()
}

// The lumps of all shapes, ascending and each once.
pub fn list_pictures(alloc: Global, frames: &[Frame]) -> Result<Vec<LumpNo>, OutOfMemory>
    ensures { IfOk result (λ found. ArePictures frames.now (map (λ lump. lump.0) found.items)) }
{
    let mut numbers = shape_numbers(alloc, frames)?;
    numbers.sort_unstable();
    numbers.dedup();
    as_lumps(alloc, &numbers)
}

// The lumps of all shapes as they come.
fn shape_numbers(alloc: Global, frames: &[Frame]) -> Result<Vec<u16>, OutOfMemory>
    ensures { IfOk result (λ numbers. numbers.items ≡ book_lumps frames.now) }
{
    let mut numbers = Vec::new(alloc);
    for frame in frames {
        add_numbers(&mut numbers, &frame.shapes)?;
    }
    Ok(numbers)
}

fn add_numbers(numbers: &mut Vec<u16>, shapes: &[Shape]) -> Result<(), OutOfMemory>
    ensures { OnOk result (numbers.new.items ≡ numbers.old.items
        ++ map (λ shape. shape.lump.0) shapes.now) }
{
    for shape in shapes {
        numbers.push(shape.lump.0)?;
    }
    Ok(())
}

fn as_lumps(alloc: Global, numbers: &[u16]) -> Result<Vec<LumpNo>, OutOfMemory>
    ensures { IfOk result (λ found. map (λ lump. lump.0) found.items ≡ numbers.now) }
{
    let mut found = Vec::new(alloc);
    for number in numbers {
        found.push(LumpNo(*number))?;
    }
    Ok(found)
}
