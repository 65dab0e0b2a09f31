//! How objects are written and made that are no contexts, and how any object gets its hash.
ghost use Rattle.std.specs.Prelude.{◌≡◌, ◌<◌, false, true, IsSome, IfErr, IfOk, OnErr, OnOk};
ghost use Rattle.cs_heap.specs.Object.{is_object, is_watched, size, slot_count_of, with_object};
ghost use Rattle.cs_model.specs.Obj.{is_header, literal_count};
ghost use Rattle.cs_model.specs.Instance.{hash_given, hash_of, next_hash};
ghost use Rattle.cs_model.specs.Operation.{add_of, next_ref, set_fixed_of, store_byte_of};
ghost use Rattle.cs_model.specs.PrimObject.{blank_method, can_be_fixed};
ghost use Rattle.cs_model.specs.State.{object_of};
ghost use Rattle.cs_acts.specs.declared.act.Full.TheVariants as full;
ghost use Rattle.cs_acts.specs.Full.{CausesFull};
ghost use Rattle.cs_acts.specs.Made.{CanMakeMethod, MakesAtMost, code_words};
ghost use Rattle.cs_acts.specs.Names.{IsNamed, KeepsNames, Names, name_of};
ghost use Rattle.cs_acts.specs.Ready.{writable_bytes};
ghost use Rattle.cs_stack.specs.Good.{IsGood};
ghost use Rattle.cs_stack.specs.Moved.{first_byte, headed};
ghost use Rattle.cs_stack.specs.View.{layout_of, stored_of, view_of};

use crate::parts::{NIL, Parts};
use cs_acts::Full;
use cs_classes::method_header;
use cs_heap::Heap;
use cs_word::{MethodHeader, Oop};

/// The format of a method whose last slot ends with its bytecodes. Up to three more say how many bytes are unused.
const METHOD_FORMAT: u8 = 24;

/// Hashes are below this.
const HASHES: u32 = 4_194_304;

impl Parts {
    /// Writes byte i of an object that has bytes, or of the bytecodes of a method.
    pub(crate) fn store_byte(&mut self, o: Oop, i: u32, b: u8)
        requires good { IsGood self.old }
        requires object { IsNamed (stored_of self.old) o }
        requires there { i < writable_bytes (object_of (view_of self.old) (name_of (stored_of self.old) o)) }
        ensures good { IsGood self.new }
        ensures view { view_of self.new ≡ store_byte_of (view_of self.old) (name_of (stored_of self.old) o) i b }
        ensures names { KeepsNames (stored_of self.old) (stored_of self.new) }
        ensures contexts { MakesAtMost 0 (layout_of self.old) (stored_of self.old) (stored_of self.new) }
        ensures rest { self.new ≡ record self.old { heap = self.new.heap } }
        ensures limit { self.new.heap.limit ≡ self.old.heap.limit }
    {
        let first = self.first_byte(o);
        self.heap.set_byte(o, first + i, b);
    }

    /// Where the bytes of an object begin: those of a method stand behind its header and its literals.
    fn first_byte(&self, o: Oop) -> u32
        requires good { IsGood self.now }
        requires object { is_object self.now.heap.objects o.0 ≡ true }
        ensures { result ≡ first_byte self.now.heap.objects o.0 }
    {
        if (24..28).contains(&self.heap.format(o)) {
            4 * (1 + method_header(&self.heap, o).literals())
        } else {
            0
        }
    }

    /// Makes an object that is no context read-only, or ends that.
    pub(crate) fn set_fixed(&mut self, o: Oop, on: bool)
        requires good { IsGood self.old }
        requires named { IsNamed (stored_of self.old) o }
        requires object { can_be_fixed (object_of (view_of self.old) (name_of (stored_of self.old) o)) ≡ true }
        ensures good { IsGood self.new }
        ensures view { view_of self.new ≡ set_fixed_of (view_of self.old) (name_of (stored_of self.old) o) on }
        ensures names { KeepsNames (stored_of self.old) (stored_of self.new) }
        ensures contexts { MakesAtMost 0 (layout_of self.old) (stored_of self.old) (stored_of self.new) }
        ensures rest { self.new ≡ record self.old { heap = self.new.heap } }
        ensures limit { self.new.heap.limit ≡ self.old.heap.limit }
    {
        self.heap.set_fixed(o, on);
    }

    /// The identity hash of an object, which is given to it where it has none yet.
    pub(crate) fn hash_of(&mut self, o: Oop) -> u32
        requires good { IsGood self.old }
        requires named { IsNamed (stored_of self.old) o }
        requires object { IsSome (object_of (view_of self.old) (name_of (stored_of self.old) o)) }
        ensures good { IsGood self.new }
        ensures value { result ≡ hash_of (view_of self.old) (name_of (stored_of self.old) o) }
        ensures view { view_of self.new ≡ hash_given (view_of self.old) (name_of (stored_of self.old) o) }
        ensures names { KeepsNames (stored_of self.old) (stored_of self.new) }
        ensures contexts { MakesAtMost 0 (layout_of self.old) (stored_of self.old) (stored_of self.new) }
        ensures layout { layout_of self.new ≡ layout_of self.old }
        ensures limit { self.new.heap.limit ≡ self.old.heap.limit }
    {
        let hash = self.heap.hash(o);
        if hash != 0 {
            return hash;
        }
        let hash = next_hash(self.roots.last_hash);
        self.heap.set_hash(o, hash);
        self.roots.last_hash = hash;
        hash
    }

    /// Makes a method of this class index and header, with nil for its literals and so many bytecode bytes of 0.
    pub(crate) fn new_method(
        &mut self,
        class: u32,
        header: MethodHeader,
        count: u32,
    ) -> Result<Oop, Full>
        requires good { IsGood self.old }
        requires fits { CanMakeMethod (view_of self.old) class header.0 count }
        ensures good { IsGood self.new }
        ensures view { OnOk result (view_of self.new ≡ add_of (view_of self.old)
            (blank_method (view_of self.old) class count header.0)) }
        ensures value { IfOk result (λ o. Names (stored_of self.new) o (next_ref (view_of self.old))) }
        ensures layout { layout_of self.new ≡ layout_of self.old }
        ensures limit { self.new.heap.limit ≡ self.old.heap.limit }
        ensures contexts { MakesAtMost 0 (layout_of self.old) (stored_of self.old) (stored_of self.new) }
        ensures refused { OnErr result (self.new ≡ self.old) }
        ensures names { OnOk result (KeepsNames (stored_of self.old) (stored_of self.new)) }
        ensures full { IfErr result (λ why. (why ≡ full.Heap) × CausesFull (stored_of self.new) (layout_of self.old)
            (view_of self.old) (size (code_words header.0 count)) (add_of (view_of self.old)
            (blank_method (view_of self.old) class count header.0)) why) }
    {
        // for what its clauses say: no class index from there on has an entry
        let _entries = self.classes.len();
        let birth = self.roots.next_birth;
        let end = u64::from(count) + 3;
        let slots = 1 + header.literals() + (end / 4) as u32;
        let format = METHOD_FORMAT + 3 - (end % 4) as u8;
        match self.heap.allocate(class, format, slots, birth) {
            Ok(method) => {
                write_header(&mut self.heap, method, header);
                self.roots.next_birth = birth + 1;
                Ok(method)
            }
            Err(_) => Err(Full::Heap),
        }
    }
}

/// Writes the header of a method, which isn't watched, and nil to each of its literals.
fn write_header(heap: &mut Heap, method: Oop, header: MethodHeader)
    requires valid { is_header header.0 ≡ true }
    requires slots { literal_count header.0 < slot_count_of heap.old.objects method.0 }
    requires unwatched { is_watched heap.old method.0 ≡ false }
    ensures heap { heap.new ≡ record heap.old { objects = with_object heap.old.objects method.0 (headed header.0) } }
{
    for i in 0..header.literals() {
        heap.set_slot(method, i + 1, NIL);
    }
    heap.set_slot(method, 0, Oop::from_natural(header.0));
}

/// The hash behind the last one that was given. Where they are used up they begin anew at 1.
fn next_hash(last: u32) -> u32
    requires { last < 4194304 }
    ensures { result ≡ next_hash last }
{
    let next = (last + 1) % HASHES;
    if next == 0 { 1 } else { next }
}
