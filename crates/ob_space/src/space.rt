ghost use Rattle.std.specs.Prelude.{◌≡◌, ◌+◌, ◌*◌, ◌<◌, ◌≤◌, ◌^◌, length, IfOk, MatchResult};
ghost use Rattle.ob_model.specs.Settings.{IsFit};
ghost use Rattle.ob_code.specs.Frames.{frame_word, top_base, with_word};
ghost use Rattle.ob_code.specs.Shown.{top_number};
ghost use Rattle.ob_frames.specs.Links.{KeepsLinks};
ghost use Rattle.ob_frames.specs.Writes.{WritesWord};
ghost use Rattle.ob_standing.specs.Laws.{KeepsStanding};
ghost use Rattle.ob_space.specs.Accesses.{GranulesLieApart};
ghost use Rattle.ob_space.specs.Loaded.{loaded, cleared, top_words, with_space, Enters, IsRefused, top_link, left};

use crate::statics::add_statics;
use ob_base::NoMemory;
use ob_code::Verified;
use ob_frames::laws::law_objects;
use ob_frames::{Frames, StackFull};
use ob_lifetimes::Lifetimes;
use ob_model::RunSettings;
use ob_standing::laws::{law_deaths, law_new_objects};
use ob_statics::law_laid_out;
use std::alloc::Global;
use std::marker::Model;

/// The memory of a program that the flat machine runs: the bytes with their marks, the calls in progress, the
/// objects, the slots of pointers out of bounds, the heap's blocks, and the granules outside of objects. It is
/// seen as the rows of the image that memory is laid out by, the settings, and what memory holds.
#[derive(Drop)]
pub struct Space {
    pub(crate) frames: Frames,
    pub(crate) living: Lifetimes,
    pub(crate) settings: RunSettings,
}

impl Model for Space {
    ghost use Rattle.ob_space.specs.Loaded.{Loaded};
    ghost use Rattle.ob_space.specs.Kept.{loaded_in, IsKept};

    ghost Value = { Loaded };

    ghost view = { λ s. loaded_in s.frames s.living s.settings };

    ghost invariant = { λ s. IsKept s.frames s.living s.settings };
}

impl Space {
    /// The memory of an image under these settings: its static objects are laid out, and no call is in
    /// progress. Takes all the memory that it will ever take, but for granules outside of objects, and answers
    /// `NoMemory` where there is too little.
    pub fn new(alloc: Global, v: &Verified, settings: &RunSettings) -> Result<Space, NoMemory>
        requires settings { IsFit settings.now }
        ensures { IfOk result (λ space. space ≡ loaded v.now settings.now) }
    {
        law_laid_out();
        let frames = Frames::new(alloc, v, settings.heap)?;
        frames.law_framed();
        let mut living = Lifetimes::new(alloc, settings, frames.statics() as usize)?;
        add_statics(&frames, &mut living);
        Ok(Space {
            frames,
            living,
            settings: *settings,
        })
    }

    /// Makes the memory what `new` made it. No call is in progress then. Takes no memory.
    pub fn clear(&mut self)
        ensures memory { self.new ≡ cleared self.old }
        ensures links { KeepsLinks self.old.space self.new.space }
    {
        law_laid_out();
        self.frames.clear();
        self.frames.law_framed();
        self.living.clear();
        add_statics(&self.frames, &mut self.living);
    }

    /// Does nothing; its clause says that no two objects share a granule: the last granule of an object lies in
    /// its block as a whole.
    pub fn stands(&self)
        ensures { GranulesLieApart self.now.space.entries }
    {
        law_objects();
        self.frames.law_framed();
        self.living.stands();
    }

    /// Enters a function of the image: its frame becomes zero bytes with its two link words, `link` and the
    /// base of the caller's frame, which is 0 for the first call, and its local objects are made. The next
    /// object number is below 2^63. `StackFull` comes exactly where the allowances of the calls in progress and
    /// the function's sum to more than 1,048,576, and changes nothing.
    pub fn enter(&mut self, function: u32, link: u64) -> Result<(), StackFull>
        requires known { function < length self.old.functions }
        requires next { self.old.space.next < 2 ^ 63 }
        ensures answer { MatchResult result (λ _. Enters function link self.old self.new) (λ _. IsRefused function self.old self.new) }
        ensures links { KeepsLinks self.old.space self.new.space }
        ensures standing { KeepsStanding self.old.space self.new.space }
    {
        law_new_objects();
        self.frames.law_framed();
        self.living.stands();
        let base = self.frames.enter(function, link, self.living.next())?;
        self.living.enter(base, self.frames.row(function));
        Ok(())
    }

    /// Leaves the innermost call, whose objects die, and gives the `link` that entering it was given. `None`
    /// comes exactly where no call is in progress, and changes nothing.
    pub fn leave(&mut self) -> Option<u64>
        ensures link { result ≡ top_link self.old.space.calls }
        ensures memory { self.new ≡ left self.old }
        ensures links { KeepsLinks self.old.space self.new.space }
        ensures standing { KeepsStanding self.old.space self.new.space }
    {
        law_deaths();
        self.frames.law_framed();
        self.living.stands();
        let call = self.frames.leave()?;
        let row = self.frames.row(call.function);
        self.living.leave(call.base, call.first, row);
        Some(call.link)
    }

    /// The number of the innermost call's function, from 0. `None` comes exactly where no call is in progress.
    pub fn function(&self) -> Option<u32>
        ensures { result ≡ top_number self.now.space.calls }
    {
        let top = self.frames.top()?;
        Some(top.0)
    }

    /// A word of the innermost call's frame, counted from 0. The frame has more than `index` words.
    pub fn get_word(&self, index: u32) -> u64
        requires { index < top_words self.now }
        ensures { result ≡ frame_word self.now.space index }
    {
        self.frames.get_word(index)
    }

    /// Writes a word of the innermost call's frame, behind its two link words: `index` is at least 2, and
    /// the frame has more words. Nothing else changes.
    pub fn put_word(&mut self, index: u32, w: u64)
        requires least { 2 ≤ index }
        requires most { index < top_words self.old }
        ensures memory { self.new ≡ with_space self.old (with_word self.old.space index w) }
        ensures word { WritesWord (top_base self.old.space.calls + 8 * index) w self.old.space.memory self.new.space.memory }
        ensures links { KeepsLinks self.old.space self.new.space }
        ensures standing { KeepsStanding self.old.space self.new.space }
    {
        self.frames.put_word(index, w);
    }
}
