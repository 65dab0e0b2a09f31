//! The objects of a file, found by the words that name them.

ghost use Rattle.std.specs.Prelude.{◌≡◌, ◌<◌, ◌≤◌, ◌+◌, ◌*◌, ◌^◌, ◌==◌, true, IfSome, length, option_map, slice_get};
ghost use Rattle.std.specs.Prelude.{take, drop};
ghost use Rattle.cs_model.specs.ImageFile.{address_in, is_nil_word, named, nil_in};
ghost use Rattle.cs_model.specs.ImageFault.{is_body, unless_nil};

use crate::cut::{slots_of, word_at};
use std::marker::Model;

/// Where an object lies in the file, in words from the heap's first one, and what its header says.
#[derive(Clone, Copy)]
pub(crate) struct Placed {
    /// The place of its first word.
    pub(crate) first: u32,
    /// The place of its header.
    pub(crate) place: u32,
    /// The index of its class.
    pub(crate) class: u32,
    pub(crate) format: u8,
    /// Its identity hash.
    pub(crate) hash: u32,
    /// Whether its header says that it is read-only.
    pub(crate) fixed: bool,
    /// How many slots it has.
    pub(crate) slots: u32,
}

/// An object of a file.
#[derive(Clone, Copy)]
pub(crate) struct FileObject<'a> {
    /// The place of its first word, counted in words from the heap's first one.
    pub(crate) first: u32,
    /// The place of its header, counted in the same way.
    pub(crate) place: u32,
    /// The index of its class.
    pub(crate) class: u32,
    pub(crate) format: u8,
    /// Its identity hash.
    pub(crate) hash: u32,
    /// Whether its header says that it is read-only.
    pub(crate) fixed: bool,
    /// Its slots.
    pub(crate) words: &'a [u32],
}

/// The objects of a file that aren't skipped, in order.
#[derive(Drop)]
pub(crate) struct FileHeap {
    /// The old base: the address of the heap's first byte, as its words have it.
    pub(crate) base: u32,
    /// All words of the heap.
    pub(crate) words: Vec<u32>,
    pub(crate) objects: Vec<Placed>,
    /// For each word of the heap 0, or, where it begins an object's header, one more than the object's number.
    pub(crate) starts: Vec<u32>,
}

impl Model for FileHeap {
    ghost use Rattle.cs_model.specs.ImageFile.{File};

    ghost Value = { File };

    ghost use Rattle.cs_image.specs.Heap.{IsFileHeap, file_in};

    ghost view = { file_in };

    ghost invariant = { IsFileHeap };
}

impl FileHeap {
    ghost use Rattle.cs_image.specs.Heap.{seen};
    ghost use Rattle.cs_image.specs.Loading.{number_that};

    /// How many objects there are.
    pub(crate) fn len(&self) -> usize
        ensures { result ≡ length self.now.objects }
    {
        self.objects.len()
    }

    /// An object by its number.
    pub(crate) fn get(&self, number: usize) -> Option<FileObject<'_>>
        ensures value { option_map seen result ≡ slice_get self.now.objects number }
        ensures within { IfSome result (λ o. length o.words.now ≤ 2 ^ 27) }
    {
        if number < self.objects.len() {
            Some(self.object(number))
        } else {
            None
        }
    }

    /// An object that is there, by its number.
    pub(crate) fn object(&self, number: usize) -> FileObject<'_>
        requires { number < length self.now.objects }
        ensures value { slice_get self.now.objects number ≡ Some (seen result) }
        ensures within { result.place + 2 + length result.words.now ≤ 2 ^ 27 }
        ensures class { result.class < 2 ^ 22 }
        ensures hash { result.hash < 2 ^ 22 }
        ensures well_formed { is_body result.format result.words.now ≡ true }
    {
        let o = self.objects[number];
        FileObject {
            first: o.first,
            place: o.place,
            class: o.class,
            format: o.format,
            hash: o.hash,
            fixed: o.fixed,
            words: slots_of(&self.words, &o),
        }
    }

    /// The number of the object that a word names, counted from 0.
    pub(crate) fn number_named(&self, word: u32) -> Option<usize>
        ensures { result ≡ number_that (λ o. address_in self.now o == word) self.now.objects }
    {
        if word < self.base || (word - self.base) % 4 != 0 {
            return None;
        }
        let number = word_at(&self.starts, ((word - self.base) / 4) as usize);
        if number == 0 {
            None
        } else {
            Some(number as usize - 1)
        }
    }

    /// The object that a word names.
    pub(crate) fn named(&self, word: u32) -> Option<FileObject<'_>>
        ensures value { option_map seen result ≡ named self.now word }
        ensures within { IfSome result (λ o. length o.words.now ≤ 2 ^ 27) }
    {
        match self.number_named(word) {
            Some(number) => self.get(number),
            None => None,
        }
    }

    /// The address of nil, which is the first object.
    pub(crate) fn nil(&self) -> u32
        ensures { result ≡ nil_in self.now }
    {
        if self.objects.is_empty() {
            return 0;
        }
        self.base + 4 * self.objects[0].place
    }

    /// Whether a word is the address of nil.
    pub(crate) fn is_nil(&self, word: u32) -> bool
        ensures { result ≡ is_nil_word self.now word }
    {
        word == self.nil()
    }

    /// The object that a word names, if that isn't nil.
    pub(crate) fn unless_nil(&self, word: u32) -> Option<FileObject<'_>>
        ensures { option_map seen result ≡ unless_nil self.now word }
    {
        if self.is_nil(word) {
            None
        } else {
            self.named(word)
        }
    }
}
