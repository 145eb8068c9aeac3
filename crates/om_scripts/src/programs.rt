//! Programs and processes: what their lines build.

ghost use Rattle.std.specs.Prelude.{◌≡◌, ◌<◌, ◌≤◌, ◌++◌, ◌∷◌, [], All, map, length, slice_get, true, None, Some, IfOk, IfSome, OnOk, OnErr};
ghost use Rattle.std.specs.Option.{option_map};
ghost use Rattle.om_text.specs.Reading.{Gives};
ghost use Rattle.om_scripts.specs.Named.{place_of};
ghost use Rattle.om_interval.specs.declared.pid.TheConstants.{MAX_PROCESSES};
ghost use Rattle.om_process.specs.Images.{program_of};
ghost use Rattle.om_scripts.specs.Programs.{IsProgram, no_programs, program_at, program_line, program_name, programs_of, process_line};

use crate::image::{image_of, words_in};
use crate::named::Named;
use crate::names::name_of;
use om_interval::MAX_PROCESSES;
use om_isa::{Ext, is_memory_size};
use om_process::Image;
use om_text::{BuildError, LineError, number_of};
use std::alloc::{AllocError, Global};
use std::marker::Model;

/// The most kills of a run: lines `kill` of a cluster file, or kills that are drawn.
pub const MAX_KILLS: usize = 64;

/// The programs of a cluster and its processes, as far as they have been read.
#[derive(Drop)]
pub struct Programs {
    programs: Named<Image>,
    processes: Named<usize>,
    is_closed: bool,
}

impl Model for Programs {
    ghost use Rattle.std.specs.Prelude.{map};
    ghost use Rattle.om_scripts.specs.Named.{place_of};
    ghost use Rattle.om_process.specs.Images.{program_of};
    ghost use Rattle.om_scripts.specs.Programs.{Cluster};
    ghost use Rattle.om_scripts.specs.steps.Lawful.{IsCluster};

    ghost Value = { Cluster };

    ghost view = { λ p. record {
      programs = map (λ e. (e.0, program_of e.1)) p.programs;
      processes = p.processes;
      is_closed = p.is_closed;
    } };

    ghost invariant = { λ p. IsCluster (record {
      programs = map (λ e. (e.0, program_of e.1)) p.programs;
      processes = p.processes;
      is_closed = p.is_closed;
    }) };
}

impl Programs {
    /// Makes a list of no program and no process, open for both.
    pub fn new(alloc: Global) -> Programs
        ensures { result ≡ no_programs }
    {
        Programs {
            programs: Named::new(alloc),
            processes: Named::new(alloc),
            is_closed: false,
        }
    }

    /// Returns the number of processes.
    pub fn n(&self) -> usize
        ensures number { result ≡ length self.now.processes }
        ensures few { result ≤ MAX_PROCESSES }
    {
        self.processes.len()
    }

    /// Returns the name of a process, by its number.
    pub fn name(&self, place: usize) -> Option<&str>
        ensures { option_map (λ name. name.now) result ≡ option_map (λ e. e.0) (slice_get self.now.processes place) }
    {
        let (name, _) = self.processes.get(place)?;
        Some(name)
    }

    /// Returns the name of the program of a process, by the number of the process.
    pub fn program_of(&self, process: usize) -> Option<&str>
        ensures { option_map (λ name. name.now) result ≡ option_map (λ e. program_name self.now e.1) (slice_get self.now.processes process) }
    {
        let (_, place) = self.processes.get(process)?;
        let (name, _) = self.programs.get(*place)?;
        Some(name)
    }

    /// Returns the number of the process of a name.
    pub fn place(&self, name: &str) -> Option<usize>
        ensures place { result ≡ place_of name.now self.now.processes }
        ensures in_range { IfSome result (λ place. place < MAX_PROCESSES) }
    {
        self.processes.place(name)
    }

    /// Returns the image of a program, by its place among the programs.
    pub fn image(&self, place: usize) -> Option<&Image>
        ensures { option_map (λ image. program_of image.now) result ≡ option_map (λ e. e.1) (slice_get self.now.programs place) }
    {
        let (_, image) = self.programs.get(place)?;
        Some(image)
    }

    /// Copies the images of the processes.
    pub fn images(&self, alloc: Global) -> Result<Vec<Image>, AllocError>
        ensures programs { IfOk result (λ images. map program_of images.items ≡ programs_of self.now) }
        ensures sizes { IfOk result (λ images. All IsProgram (map program_of images.items)) }
    {
        let mut images = Vec::new(alloc);
        for process in 0..self.processes.len() {
            images.push(self.image_of(alloc, process)?)?;
        }
        Ok(images)
    }

    // Copies the image of a process.
    fn image_of(&self, alloc: Global, process: usize) -> Result<Image, AllocError>
        requires { process < length self.now.processes }
        ensures program { IfOk result (λ image. slice_get (programs_of self.now) process ≡ Some (program_of image)) }
        ensures size { IfOk result (λ image. IsProgram (program_of image)) }
    {
        match self.processes.get(process) {
            Some((_, place)) => self.copy_at(alloc, *place),
            None => unreachable!(),
        }
    }

    // Copies the image at a place.
    fn copy_at(&self, alloc: Global, place: usize) -> Result<Image, AllocError>
        requires { place < length self.now.programs }
        ensures program { IfOk result (λ image. program_of image ≡ program_at self.now place) }
        ensures size { IfOk result (λ image. IsProgram (program_of image)) }
    {
        match self.programs.get(place) {
            Some((_, image)) => image.copy(alloc),
            None => unreachable!(),
        }
    }

    /// Closes the list as other lines begin: a program or a process that is given from now on is out of place.
    pub fn close(&mut self)
        ensures { self.new ≡ record self.old { is_closed = true } }
    {
        self.is_closed = true;
    }

    /// Takes in a line `program NAME SIZE WORD ..`, by the words behind its first. `ext` says which instructions the program
    /// may use.
    pub fn add_program(
        &mut self,
        alloc: Global,
        ext: Ext,
        words: &[&[u8]],
    ) -> Result<(), BuildError<LineError>>
        ensures line { Gives (λ _. self.new) result (program_line ext self.old (map (λ word. word.now) words.now)) }
        ensures refused { OnErr result (self.new ≡ self.old) }
    {
        let [name, size, words @ ..] = words else {
            return Err(LineError::WrongCount.into());
        };
        let Some(size) = number_of(size) else {
            return Err(LineError::BadNumber.into());
        };
        let words = words_in(alloc, words)?;
        let Some(name) = name_of(name) else {
            return Err(LineError::BadName.into());
        };
        if self.program_place(name).is_some() {
            return Err(LineError::NameTaken.into());
        }
        if self.is_closed {
            return Err(LineError::OutOfPlace.into());
        }
        if !is_memory_size(size as usize) {
            return Err(LineError::BadSize.into());
        }
        if (size as usize) < 4 * words.len() {
            return Err(LineError::ImageTooLong.into());
        }
        let image = image_of(alloc, ext, size, &words)?;
        self.push_program(alloc, name, image)?;
        Ok(())
    }

    // Adds a program by a new name.
    fn push_program(&mut self, alloc: Global, name: &str, image: Image) -> Result<(), AllocError>
        requires new { place_of name.now self.old.programs ≡ None }
        requires right { IsProgram (program_of image) }
        ensures refused { OnErr result (self.new ≡ self.old) }
        ensures added { OnOk result (self.new ≡ record self.old {
          programs = self.old.programs ++ (name.now, program_of image) ∷ [];
        }) }
    {
        self.programs.add(alloc, name, image)
    }

    // Returns the place of a program.
    fn program_place(&self, name: &str) -> Option<usize>
        ensures { result ≡ place_of name.now self.now.programs }
    {
        self.programs.place(name)
    }

    /// Takes in a line `proc NAME PROGRAM`, by the words behind its first.
    pub fn add_process(
        &mut self,
        alloc: Global,
        words: &[&[u8]],
    ) -> Result<(), BuildError<LineError>>
        ensures line { Gives (λ _. self.new) result (process_line self.old (map (λ word. word.now) words.now)) }
        ensures refused { OnErr result (self.new ≡ self.old) }
    {
        let [name, program] = words else {
            return Err(LineError::WrongCount.into());
        };
        let (Some(name), Some(program)) = (name_of(name), name_of(program)) else {
            return Err(LineError::BadName.into());
        };
        if self.processes.place(name).is_some() {
            return Err(LineError::NameTaken.into());
        }
        let Some(place) = self.program_place(program) else {
            return Err(LineError::NoSuchName.into());
        };
        if self.is_closed {
            return Err(LineError::OutOfPlace.into());
        }
        if self.processes.len() >= MAX_PROCESSES {
            return Err(LineError::TooMany.into());
        }
        self.processes.add(alloc, name, place)?;
        Ok(())
    }
}
