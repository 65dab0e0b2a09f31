//! Making instances of classes.
//!
//! A class says in one of its slots of what format its instances are and how many fields they have. Its identity hash
//! is its index in the class table, once it has one.

ghost use Rattle.std.specs.Prelude.{◌≡◌, ◌+◌, ◌*◌, ◌<◌, ◌↔◌, true, IfErr, IfOk, IfSome, IsErr, IsTrue, OnErr};
ghost use Rattle.std.specs.Prelude.{is_none, option_map, position};
ghost use Rattle.std.specs.FinMap.{get, insert};
ghost use Rattle.cs_heap.specs.Format.{format_allows};
ghost use Rattle.cs_heap.specs.Object.{is_object, next_address, size as size_of, used};
ghost use Rattle.cs_heap.specs.Writes.{hash_stored, object_added};
ghost use Rattle.cs_model.specs.Instance.{IndexAt, first_free_index, free_indices, is_entry, is_instance_index};
ghost use Rattle.cs_model.specs.Instance.{is_instance_shape, lowest_free, pointer_format, unit_bytes};
ghost use Rattle.cs_classes.specs.Instances.{entry_taken, fitting, hash_taken, index_answer, index_in_table};
ghost use Rattle.cs_classes.specs.Instances.{behavior_index, instance_format, instance_slots, planned_memory};
ghost use Rattle.cs_classes.specs.Instances.{planned_answer, plan_of, shape_at, planned_table};
ghost use Rattle.cs_classes.specs.declared.NewError.TheVariants as refused;

use crate::slots::{CLASS_SLOTS, FIRST_STACK, INSTANCE_SHAPE};
use crate::{CONTEXT_CLASS, Classes, FIELDS_AND_INDICES, NewError, POINTERS_END, has_slots};
use cs_heap::Heap;
use cs_word::Oop;

/// The lowest class index that a class may take.
const FIRST_FREE: u32 = 32;

/// What a class says of its instances.
#[derive(Clone, Copy)]
struct Shape {
    /// Their format, with no count of unused units.
    format: u32,
    /// How many fields they have.
    fields: u32,
}

/// The format of an instance, with its count of unused units, and how many slots it has.
#[derive(Clone, Copy)]
struct Body {
    format: u8,
    slots: u64,
}

/// How many bytes a unit of this raw format has.
fn unit_bytes(format: u32) -> u32
    ensures { result ≡ unit_bytes format }
{
    match format {
        9 => 8,
        10 => 4,
        0..=15 => 2,
        _ => 1,
    }
}

/// The format of the instances of a class that says this pointer format. Weak objects are made as others, and so are
/// ephemerons.
fn pointer_format(format: u8) -> u8
    ensures { result ≡ pointer_format format }
{
    match format {
        4 => 3,
        5 => 1,
        _ => format,
    }
}

/// Whether an instance of the class of this index may be made with so many elements: an immediate is none, and a
/// context has a stack of 16 or 56.
fn is_instance_index(index: u32, size: u32) -> bool
    ensures { result ≡ is_instance_index index size }
{
    index > 3 && (index != CONTEXT_CLASS || size == 16 || size == 56)
}

impl Shape {
    /// What this class says; None exactly where it is no pointer object with three slots, or says no SmallInteger from
    /// 0 on.
    fn of(heap: &Heap, class: Oop) -> Option<Shape>
        ensures shape { option_map (λ s. 65536 * s.format + s.fields) result ≡ shape_at heap.now.objects class.0 }
        ensures fields { IfSome result (λ s. s.fields < 65536) }
    {
        if !has_slots(heap, class, CLASS_SLOTS) {
            return None;
        }
        let Some(shape) = heap.slot(class, INSTANCE_SHAPE).natural() else {
            return None;
        };
        Some(Shape {
            format: shape / 65536,
            fields: shape % 65536,
        })
    }

    /// Whether an instance may have so many elements beside its fields.
    fn allows(self, size: u32) -> bool
        ensures { result ≡ is_instance_shape self.format self.fields size }
    {
        match self.format {
            0 => self.fields == 0 && size == 0,
            1 | 5 => size == 0,
            2 => self.fields == 0,
            3 | 4 | 9 | 10 | 12 | 16 => true,
            _ => false,
        }
    }

    /// The body of an instance with so many elements, of a class of this index.
    fn body(self, index: u32, size: u32) -> Body
        requires allowed { is_instance_shape self.format self.fields size ≡ true }
        requires fields { self.fields < 65536 }
        ensures format { result.format ≡ instance_format index self.format size }
        ensures slots { result.slots ≡ instance_slots index self.format self.fields size }
    {
        if index == CONTEXT_CLASS {
            return Body {
                format: FIELDS_AND_INDICES,
                slots: u64::from(FIRST_STACK) + u64::from(size),
            };
        }
        let format = self.format as u8;
        if format < POINTERS_END {
            return Body {
                format: pointer_format(format),
                slots: u64::from(self.fields) + u64::from(size),
            };
        }
        let unit = u64::from(unit_bytes(self.format));
        let bytes = u64::from(size) * unit;
        let unused = (3 - (bytes + 3) % 4) / unit;
        Body {
            format: format + unused as u8,
            slots: (bytes + 3) / 4,
        }
    }
}

/// The place of the first empty entry.
fn first_empty(entries: &[Option<Oop>]) -> Option<usize>
    ensures { result ≡ position (λ entry. is_none entry) entries.now }
{
    entries.iter().position(|entry| entry.is_none())
}

impl Body {
    /// Adds an object of this body. `HeapFull` comes exactly where the heap has no room for it, and then it is as
    /// it was.
    fn allocate(self, heap: &mut Heap, class: u32, birth: u64) -> Result<Oop, NewError>
        requires class { class < 16384 }
        requires shape { IsTrue (format_allows self.format self.slots) }
        ensures full { IsErr result ↔ (heap.old.limit < used heap.old.objects + size_of self.slots) }
        ensures heap_alone { IfErr result (λ why. why ≡ refused.HeapFull) }
        ensures unchanged_if_full { OnErr result (heap.new ≡ heap.old) }
        ensures added { IfOk result (λ _. heap.new ≡ object_added heap.old class self.format self.slots birth) }
        ensures address { IfOk result (λ o. o.0 ≡ next_address heap.old.objects self.slots) }
    {
        if self.slots > u64::from(heap.limit_words()) {
            return Err(NewError::HeapFull);
        }
        match heap.allocate(class, self.format, self.slots as u32, birth) {
            Ok(object) => Ok(object),
            Err(_) => Err(NewError::HeapFull),
        }
    }
}

impl Classes {
    /// Makes an instance of a class, with so many elements beside its fields, or with a stack of that size where it is
    /// the class of contexts. The instance is blank: nil in each slot, or 0 in each byte. A class of hash 0 takes the
    /// lowest empty index from 32 on, and that as its hash.
    ///
    /// `NotInstantiable` comes where the word is no pointer object with three slots, says no format and size that go
    /// together, is the class of an immediate, or has a hash without being the entry there; else `TableFull` where it
    /// has hash 0 and no index is empty; else `HeapFull` where the heap has no room for the instance. A refusal changes
    /// nothing.
    pub fn instantiate(
        &mut self,
        heap: &mut Heap,
        class: Oop,
        size: u32,
        birth: u64,
    ) -> Result<Oop, NewError>
        ensures value { result ≡ planned_answer heap.old (fitting heap.old
            (plan_of heap.old.objects self.old class.0 size)) }
        ensures memory { heap.new ≡ planned_memory heap.old class.0 birth (fitting heap.old
            (plan_of heap.old.objects self.old class.0 size)) }
        ensures table { self.new ≡ planned_table self.old class.0 (fitting heap.old
            (plan_of heap.old.objects self.old class.0 size)) }
    {
        let Some(shape) = Shape::of(heap, class) else {
            return Err(NewError::NotInstantiable);
        };
        if !shape.allows(size) {
            return Err(NewError::NotInstantiable);
        }
        let index = self.index(heap, class)?;
        if !is_instance_index(index, size) {
            return Err(NewError::NotInstantiable);
        }
        let object = shape.body(index, size).allocate(heap, index, birth)?;
        self.take(heap, class, index);
        Ok(object)
    }

    /// The index of a class. A class of hash 0 takes the lowest empty index from 32 on, and that as its hash.
    ///
    /// `NotInstantiable` comes where the word is no pointer object with three slots, or has a hash without being the
    /// entry there; `TableFull` where it has hash 0 and no index is empty. A refusal changes nothing.
    pub fn behavior_hash(&mut self, heap: &mut Heap, class: Oop) -> Result<u32, NewError>
        ensures value { result ≡ index_answer (behavior_index heap.old.objects self.old class.0) }
        ensures memory { heap.new ≡ hash_taken heap.old class.0 (behavior_index heap.old.objects self.old class.0) }
        ensures table { self.new ≡ entry_taken self.old class.0 (behavior_index heap.old.objects self.old class.0) }
    {
        if !has_slots(heap, class, CLASS_SLOTS) {
            return Err(NewError::NotInstantiable);
        }
        let index = self.index(heap, class)?;
        self.take(heap, class, index);
        Ok(index)
    }

    /// The index that an object has or takes as a class.
    fn index(&self, heap: &Heap, class: Oop) -> Result<u32, NewError>
        requires { IsTrue (is_object heap.now.objects class.0) }
        ensures value { result ≡ index_answer (index_in_table heap.now.objects self.now class.0) }
        ensures below { IfOk result (λ index. index < 16384) }
    {
        let hash = heap.hash(class);
        if hash == 0 {
            return match self.lowest_empty() {
                Some(index) => Ok(index),
                None => Err(NewError::TableFull),
            };
        }
        if self.is_entry(hash, class) {
            Ok(hash)
        } else {
            Err(NewError::NotInstantiable)
        }
    }

    /// Whether the entry of this index is this class.
    fn is_entry(&self, index: u32, class: Oop) -> bool
        ensures value { result ≡ is_entry (get self.now index) class.0 }
        ensures within { result ≡ true → index < 16384 }
    {
        if index >= self.len() {
            return false;
        }
        match self.entry(index) {
            Some(entry) => entry == class,
            None => false,
        }
    }

    /// The lowest index that a class may take.
    fn lowest_empty(&self) -> Option<u32>
        ensures value { result ≡ lowest_free free_indices first_free_index self.now }
        ensures below { IfSome result (λ index. index < 16384) }
    {
        match first_empty(&self.entries[FIRST_FREE as usize..]) {
            Some(place) => Some(FIRST_FREE + place as u32),
            None => None,
        }
    }

    /// Gives a class its index, also as its hash. A class that has it already is as it was.
    fn take(&mut self, heap: &mut Heap, class: Oop, index: u32)
        requires object { IsTrue (is_object heap.old.objects class.0) }
        requires index { index_in_table heap.old.objects self.old class.0 ≡ IndexAt index }
        requires below { index < 16384 }
        ensures memory { heap.new ≡ hash_stored heap.old class.0 index }
        ensures table { self.new ≡ insert self.old index class.0 }
    {
        if heap.hash(class) == 0 {
            heap.set_hash(class, index);
            self.set_entry(index, class);
        }
    }
}
