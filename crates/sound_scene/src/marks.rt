// Marks by number.
//
// Rules: `specs/Views`.
ghost use Rattle.std.specs.Prelude.{◌≡◌, ◌<◌, ◌==◌, ◌^◌, false, ℕ, length, filter, IfOk};
ghost use Rattle.std.specs.List.{range_with_len};
ghost use Rattle.texture_build.specs.Views.{is_marked};
ghost use Rattle.sound_scene.specs.Views.{AddsMarks, lump_numbers};

use art_rules::OutOfMemory;
use std::alloc::Global;
use std::marker::Model;
use texture_build::LumpNo;

/// A mark for each number below a count. Contracts see the list of marks.
///
/// This project's own: the original marks textures and lumps in arrays of `R_PrecacheLevel`, r_data.c.
#[derive(Drop)]
pub struct Marks {
    list: Vec<bool>,
}

impl Model for Marks {
    ghost use Rattle.std.specs.Prelude.{Bool, List};

    ghost Value = { List Bool };

    ghost view = { λ marks. marks.list.items };
}

impl Marks {
    /// `count` marks, none set. Takes a byte for each.
    ///
    /// Errors: `OutOfMemory`. This project's own.
    pub fn none(alloc: Global, count: usize) -> Result<Marks, OutOfMemory>
        ensures count { IfOk result (λ marks. length marks ≡ count) }
        ensures none { IfOk result (λ marks. (number : ℕ) → is_marked marks number ≡ false) }
    {
        let list = vec![in alloc; false; count]?;
        Ok(Marks { list })
    }

    /// Sets the mark of a number; nothing happens where there is none of that number.
    ///
    /// This project's own.
    pub fn set(&mut self, number: usize)
        ensures count { length self.new ≡ length self.old }
        ensures marked { AddsMarks self.old self.new (λ n. number == n) }
    {
        if number < self.list.len() {
            self.list[number] = true;
        }
    }

    /// Whether the mark of a number below the count is set.
    ///
    /// This project's own.
    pub fn has(&self, number: usize) -> bool
        requires { number < length self.now }
        ensures { result ≡ is_marked self.now number }
    {
        self.list[number]
    }

    /// The lumps whose numbers are marked, ascending. Takes memory for the result.
    ///
    /// Errors: `OutOfMemory`. This project's own.
    pub fn lumps(&self, alloc: Global) -> Result<Vec<LumpNo>, OutOfMemory>
        requires { length self.now < 2 ^ 16 }
        ensures { IfOk result (λ lumps.
            lump_numbers lumps.items ≡ filter (is_marked self.now)
            (range_with_len 0 (length self.now))) }
    {
        let mut lumps = Vec::new(alloc);
        for (number, marked) in self.list.iter().enumerate() {
            if *marked {
                lumps.push(LumpNo(number as u16))?;
            }
        }
        Ok(lumps)
    }
}
