//! The object memory: the objects of an image as 32-bit Spur lays them out, each with its birth.
//!
//! A word has 4 bytes and a unit 8. Each object has a header of one unit and behind it its slots,
//! rounded up to whole units and to one at least. From 255 slots on one more unit stands before the
//! header and holds the count. The first word of the first object is at 65,536, and the first word
//! of each other one is right behind the object before it. The address of an object is that of its
//! header.
//!
//! Objects are added at the end, and never move or go away. A birth is a number of this machine's
//! own, which whoever makes an object gives to it; Spur has none.
#![tactic(auto)]

mod rows;

ghost use Rattle.std.specs.Prelude.{◌≡◌, ℕ, ◌+◌, ◌*◌, ◌<◌, ◌≤◌, ◌^◌, ◌↔◌, [], ◌∷◌, ◌++◌, IfOk, IsErr, IsTrue, OnErr};
ghost use Rattle.std.specs.Prelude.{false, option_map};
ghost use Rattle.std.specs.FinSet.{empty};
ghost use Rattle.cs_word.specs.Header.{IsWritable};
ghost use Rattle.cs_heap.specs.Format.{format_allows};
ghost use Rattle.cs_heap.specs.Object.{address_of, birth_at, byte_of, class_at, format_at, hash_at, header_seen};
ghost use Rattle.cs_heap.specs.Object.{is_immutable_at, is_watched};
ghost use Rattle.cs_heap.specs.Object.{is_object, next_address, next_of, size as size_of, slot_count_of, slot_of, used};
ghost use Rattle.cs_heap.specs.Writes.{byte_stored, cleaned, fixed_stored, hash_stored, object_added, slot_stored};
ghost use Rattle.cs_heap.specs.Writes.{watch_begun};

use bitflags::Flags as _;
use cs_word::{Flags, Header, Oop};
use std::alloc::{AllocError, Global};
use std::marker::Model;

/// The address of the first word of the first object, in bytes.
pub const BASE: u32 = 65536;

/// The mark of a unit that is a header.
const HEADER: u8 = 1;

/// The mark of one whose object is watched.
const WATCHED: u8 = 2;

/// The object memory.
///
/// It is seen as `limit`, the words that its objects may take, and `objects`, the list of them in the order of their
/// addresses, each with class, flags, format, hash, birth and words; and beside them `watched`, the addresses of the
/// watched ones, and `dirty`. A call that takes an object has the condition that it is one of this heap, which
/// `is_object` tests, and one that takes an index that it is in range, by `slot_count`.
#[derive(Drop)]
pub struct Heap {
    /// All objects' words, one object right behind another.
    words: Vec<u32>,
    /// For each unit that is a header the birth of its object, for the others 0.
    births: Vec<u64>,
    /// For each unit `HEADER` where it is a header, `WATCHED` where its object is watched, and else 0.
    marks: Vec<u8>,
    limit: u32,
    /// Whether a slot of a watched object was stored since `new` or `clean`.
    dirty: bool,
}

impl Model for Heap {
    ghost use Rattle.cs_heap.specs.Code.{memory_code};
    ghost use Rattle.cs_heap.specs.Layout.{IsHeap, memory};
    ghost use Rattle.cs_heap.specs.Object.{Memory};

    ghost Value = { Memory };

    ghost coded = { memory_code };

    ghost view = { memory };

    ghost invariant = { IsHeap };
}

/// The heap has no room for an object: with it, the objects would take more words than the limit.
#[derive(Clone, Copy, PartialEq, Eq, Debug)]
pub struct HeapFull;

/// The words of 4 bytes that an object of so many slots takes: 2 for its header, 2 more from 255
/// slots on, and its slots rounded up to an even count of 2 at least.
pub fn size(slots: u32) -> u64
    ensures { result ≡ size_of slots }
{
    2 * u64::from(rows::units_before(slots) + 1 + rows::body_units(slots))
}

/// Whether an object of this format may have so many slots, as 32-bit Spur numbers the formats.
///
/// These are 0 without slots, 1 to 5 with pointers, 9 with pairs of slots, 10 with units of 32
/// bits, 12 and 13 with units of 16, 16 to 19 with bytes, and 24 to 27 for methods. The formats 13,
/// 17 to 19 and 25 to 27 say that units of the last slot are unused, so they need one.
pub fn format_allows(format: u8, slots: u32) -> bool
    ensures { result ≡ format_allows format slots }
{
    match format {
        0 => slots == 0,
        1..=5 | 10 | 12 | 16 | 24 => true,
        9 => slots % 2 == 0,
        13 | 17..=19 | 25..=27 => slots > 0,
        _ => false,
    }
}

impl Heap {
    /// An empty heap whose objects may take `limit_words` words. It isn't dirty. It reserves all
    /// memory that it will ever use.
    pub fn new(alloc: Global, limit_words: u32) -> Result<Heap, AllocError>
        requires least { 4096 ≤ limit_words }
        requires most { limit_words ≤ 67108864 }
        ensures limit { IfOk result (λ heap. heap.limit ≡ limit_words) }
        ensures empty { IfOk result (λ heap. heap.objects ≡ []) }
        ensures unwatched { IfOk result (λ heap. heap.watched ≡ empty) }
        ensures clean { IfOk result (λ heap. heap.dirty ≡ false) }
    {
        let limit = limit_words as usize;
        let words = Vec::with_capacity(alloc, limit)?;
        let births = Vec::with_capacity(alloc, limit / 2)?;
        let marks = Vec::with_capacity(alloc, limit / 2)?;
        Ok(Heap {
            words,
            births,
            marks,
            limit: limit_words,
            dirty: false,
        })
    }

    /// Adds an object at the end, without flags, with hash 0 and not watched. Where its format has pointers,
    /// each slot holds the address of the first object, which is nil in an image; else each is 0.
    /// `HeapFull` comes exactly where the objects would take more words than the limit, and then
    /// the heap is as it was.
    pub fn allocate(
        &mut self,
        class: u32,
        format: u8,
        slots: u32,
        birth: u64,
    ) -> Result<Oop, HeapFull>
        requires class { class < 2 ^ 22 }
        requires shape { IsTrue (format_allows format slots) }
        ensures full { IsErr result ↔ (self.old.limit < used self.old.objects + size_of slots) }
        ensures unchanged_if_full { OnErr result (self.new ≡ self.old) }
        ensures added { IfOk result (λ _. self.new ≡ object_added self.old class format slots birth) }
        ensures address { IfOk result (λ o. o.0 ≡ next_address self.old.objects slots) }
        ensures unwatched { IfOk result (λ o. is_watched self.new o.0 ≡ false) }
    {
        if u64::from(self.used_words()) + size(slots) > u64::from(self.limit) {
            return Err(HeapFull);
        }
        let unit = self.marks.len() + rows::units_before(slots) as usize;
        let header = Header {
            class,
            flags: Flags::empty(),
            format,
            hash: 0,
            slots: slots.min(255) as u8,
        };
        rows::push_object(&mut self.words, header, slots, rows::new_slot(format));
        rows::push_marked(&mut self.births, slots, birth, 0);
        rows::push_marked(&mut self.marks, slots, HEADER, 0);
        Ok(rows::address(unit))
    }

    /// The words that the objects take.
    pub fn used_words(&self) -> u32
        ensures value { result ≡ used self.now.objects }
        ensures within { result ≤ self.now.limit }
    {
        self.words.len() as u32
    }

    /// The words that the objects may take.
    pub fn limit_words(&self) -> u32
        ensures value { result ≡ self.now.limit }
        ensures least { 4096 ≤ result }
        ensures most { result ≤ 67108864 }
    {
        self.limit
    }

    /// Whether an object has this address.
    pub fn is_object(&self, o: Oop) -> bool
        ensures { result ≡ is_object self.now.objects o.0 }
    {
        match rows::unit_at(o) {
            Some(unit) => unit < self.marks.len() && self.marks[unit] != 0,
            None => false,
        }
    }

    /// The first object; None exactly where there is none.
    pub fn first(&self) -> Option<Oop>
        ensures { option_map (λ o. o.0) result ≡ address_of self.now.objects 0 }
    {
        rows::object_from(&self.marks, 0)
    }

    /// The object right behind `o`; None exactly where `o` is the last.
    pub fn next(&self, o: Oop) -> Option<Oop>
        requires { IsTrue (is_object self.now.objects o.0) }
        ensures { option_map (λ p. p.0) result ≡ next_of self.now.objects o.0 }
    {
        let unit = rows::unit_of(o);
        let slots = rows::slot_count_at(&self.words, unit);
        rows::object_from(&self.marks, unit + 1 + rows::body_units(slots) as usize)
    }

    /// The index of the object's class in the class table.
    pub fn class_index(&self, o: Oop) -> u32
        requires { IsTrue (is_object self.now.objects o.0) }
        ensures value { result ≡ class_at self.now.objects o.0 }
        ensures below { result < 2 ^ 22 }
    {
        self.header(o).class
    }

    /// The object's format.
    pub fn format(&self, o: Oop) -> u8
        requires { IsTrue (is_object self.now.objects o.0) }
        ensures value { result ≡ format_at self.now.objects o.0 }
        ensures shape { IsTrue (format_allows result (slot_count_of self.now.objects o.0)) }
    {
        self.header(o).format
    }

    /// How many slots of 4 bytes the object has.
    pub fn slot_count(&self, o: Oop) -> u32
        requires { IsTrue (is_object self.now.objects o.0) }
        ensures value { result ≡ slot_count_of self.now.objects o.0 }
        ensures most { result ≤ 67108864 }
    {
        rows::slot_count_at(&self.words, rows::unit_of(o))
    }

    /// The object's identity hash, 0 where it has none yet.
    pub fn hash(&self, o: Oop) -> u32
        requires { IsTrue (is_object self.now.objects o.0) }
        ensures value { result ≡ hash_at self.now.objects o.0 }
        ensures below { result < 2 ^ 22 }
    {
        self.header(o).hash
    }

    /// The object's birth.
    pub fn birth(&self, o: Oop) -> u64
        requires { IsTrue (is_object self.now.objects o.0) }
        ensures { result ≡ birth_at self.now.objects o.0 }
    {
        self.births[rows::unit_of(o)]
    }

    /// Slot `i`, counted from 0.
    pub fn slot(&self, o: Oop, i: u32) -> Oop
        requires { i < slot_count_of self.now.objects o.0 }
        ensures { result.0 ≡ slot_of self.now.objects o.0 i }
    {
        Oop(self.words[rows::slot_place(o, i)])
    }

    /// Byte `i`, counted from 0 and within each slot from the lowest.
    pub fn byte(&self, o: Oop, i: u32) -> u8
        requires { i < 4 * slot_count_of self.now.objects o.0 }
        ensures { result ≡ byte_of self.now.objects o.0 i }
    {
        rows::byte_in(self.slot(o, i / 4).0, i % 4)
    }

    /// Whether the object is read-only.
    pub fn is_fixed(&self, o: Oop) -> bool
        requires { IsTrue (is_object self.now.objects o.0) }
        ensures { result ≡ is_immutable_at self.now.objects o.0 }
    {
        self.header(o).is_read_only()
    }

    /// Whether the object is watched.
    pub fn is_watched(&self, o: Oop) -> bool
        requires { IsTrue (is_object self.now.objects o.0) }
        ensures { result ≡ is_watched self.now o.0 }
    {
        self.marks[rows::unit_of(o)] == WATCHED
    }

    /// Whether a slot of a watched object was stored since the heap was made or cleaned.
    pub fn dirty(&self) -> bool
        ensures { result ≡ self.now.dirty }
    {
        self.dirty
    }

    /// What the object's header says; its count of slots is 255 where there are as many or more.
    pub fn header(&self, o: Oop) -> Header
        requires { IsTrue (is_object self.now.objects o.0) }
        ensures value { result ≡ header_seen self.now.objects o.0 }
        ensures writable { IsWritable result }
        ensures shape { IsTrue (format_allows result.format (slot_count_of self.now.objects o.0)) }
    {
        rows::header_at(&self.words, rows::unit_of(o))
    }

    /// Stores `v` in slot `i`, counted from 0. Where the object is watched, the heap is dirty from here
    /// on. Nothing else changes.
    pub fn set_slot(&mut self, o: Oop, i: u32, v: Oop)
        requires { i < slot_count_of self.old.objects o.0 }
        ensures { self.new ≡ slot_stored self.old o.0 i v.0 }
    {
        self.dirty |= self.is_watched(o);
        self.words[rows::slot_place(o, i)] = v.0;
    }

    /// Stores `b` in byte `i`, counted as `byte` counts, and changes nothing else.
    pub fn set_byte(&mut self, o: Oop, i: u32, b: u8)
        requires { i < 4 * slot_count_of self.old.objects o.0 }
        ensures { self.new ≡ byte_stored self.old o.0 i b }
    {
        let word = rows::with_byte_in(self.slot(o, i / 4).0, i % 4, b);
        self.words[rows::slot_place(o, i / 4)] = word;
    }

    /// Gives the object the identity hash `h`, of 22 bits, and changes nothing else.
    pub fn set_hash(&mut self, o: Oop, h: u32)
        requires object { IsTrue (is_object self.old.objects o.0) }
        requires below { h < 2 ^ 22 }
        ensures { self.new ≡ hash_stored self.old o.0 h }
    {
        let header = Header {
            hash: h,
            ..self.header(o)
        };
        rows::set_header(&mut self.words, rows::unit_of(o), header);
    }

    /// Makes the object read-only where `on`, and else ends that, and changes nothing else.
    pub fn set_fixed(&mut self, o: Oop, on: bool)
        requires { IsTrue (is_object self.old.objects o.0) }
        ensures { self.new ≡ fixed_stored self.old o.0 on }
    {
        let mut header = self.header(o);
        header.flags.set(Flags::IS_IMMUTABLE, on);
        rows::set_header(&mut self.words, rows::unit_of(o), header);
    }

    /// Watches the object from here on, and changes nothing else.
    pub fn watch(&mut self, o: Oop)
        requires { IsTrue (is_object self.old.objects o.0) }
        ensures { self.new ≡ watch_begun self.old o.0 }
    {
        let place = rows::unit_of(o);
        self.marks[place] = WATCHED;
    }

    /// Makes the heap not dirty, and changes nothing else: watched objects stay so.
    pub fn clean(&mut self)
        ensures { self.new ≡ cleaned self.old }
    {
        self.dirty = false;
    }
}
