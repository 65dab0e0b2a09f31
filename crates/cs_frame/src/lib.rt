//! Activations as frames on stack pages.
//!
//! A page has 4,096 words and holds frames that lie on each other without a gap. A frame takes ten
//! words of overhead and one for each value of its stack. A frame that isn't the base frame of its
//! page begins in its caller's operand area, at the place where the receiver stood, so a call moves
//! nothing but the arguments, which become the first values of the new frame's stack.
//!
//! The contracts know no word: they see a list of pages, and a page as the list of its frames, the
//! last one first (`specs/Page.antt`). Each frame keeps its own place, `at`, as long as it stands.
//!
//! Frames that overlap their callers' operands are those of the stack interpreters after Deutsch and
//! Schiffman. The parts of a frame and their order are this machine's own.
#![tactic(auto)]

ghost use Rattle.std.specs.Prelude.{◌≡◌, ℕ, zero, ◌+◌, ◌*◌, ◌/◌, ◌^◌, ◌<◌, ◌≤◌, ◌↔◌, List, [], ◌∷◌, ◌++◌};
ghost use Rattle.std.specs.Prelude.{IfOk, IsNone, IfSome, replicate, length, slice_index};
ghost use Rattle.cs_frame.specs.Frame.{Frame, IsValue, IsPc, value_pushed, top_popped, with_value};
ghost use Rattle.cs_frame.specs.Frame.{with_caller, with_saved_pc, with_method, with_closure, with_context};
ghost use Rattle.cs_frame.specs.Frame.{with_receiver};
ghost use Rattle.cs_frame.specs.Page.{frames_used, AreStacked, top, on_top, rest_of, frames_of, on_page, frame_ref};
ghost use Rattle.cs_frame.specs.Page.{IsFrame, frame, caller_of, on_frame, IsTop, IsBase, called, HasArguments};
ghost use Rattle.cs_frame.specs.Page.{HoldsValues};
ghost use Rattle.cs_frame.specs.Layout.{part_of, with_part, CanHold, offset_of};
ghost use Rattle.cs_frame.specs.Written.{empty_heads, SameOutside, AllAre, HasOverhead, half_word};

use cs_word::Oop;
use cs_zone::Zone;
use std::alloc::{AllocError as NoMemory, Global};
use std::marker::Model;

/// The words of a page.
const PAGE_WORDS: u32 = 4096;

/// The words of a frame beside its stack: the saved frame pointer, the sender, the saved pc,
/// method, closure, context, the two halves of the birth, the receiver, and a spare one.
const OVERHEAD: u32 = 10;

/// The place of the low half of the birth in the overhead.
const BIRTH_LOW: u32 = 6;

/// The place of the high half.
const BIRTH_HIGH: u32 = 7;

/// The word of nil.
const NIL: u32 = 65536;

/// Each half of a birth has 31 bits, so that it is a SmallInteger.
const HALF: u64 = 1 << 31;

/// Where a frame stands. It names the frame until that is dropped, whatever is called meanwhile.
#[derive(Clone, Copy, PartialEq, Eq, Debug)]
pub struct FrameRef {
    /// The number of its page, from 0 on.
    pub page: u32,
    /// Where it begins, in words from the beginning of the page.
    pub at: u32,
}

/// A frame to be made. Its stack is its arguments, which leave the caller's stack, and then nils.
#[derive(Clone, Copy, PartialEq, Eq, Debug)]
pub struct NewFrame {
    pub method: Oop,
    /// The closure that it evaluates, or nil where it runs a method.
    pub closure: Oop,
    pub receiver: Oop,
    /// The birth of its activation, below 2^62.
    pub birth: u64,
    /// How many arguments there are. With `fill` they are 56 at most.
    pub args: u32,
    /// How many nils follow them.
    pub fill: u32,
}

/// What is known of a page beside its words.
#[derive(Clone, Copy)]
struct PageHead {
    /// Where the last frame begins, as a place in the zone.
    frame: u32,
    /// Where its stack ends, and with it the used part of the page.
    end: u32,
    /// How many frames there are.
    count: u32,
}

/// The parts of a frame that are one object word of its overhead.
#[derive(Clone, Copy)]
enum Part {
    Caller,
    SavedPc,
    Method,
    Closure,
    Context,
    Receiver,
}

impl Part {
    fn offset(self) -> u32
        ensures offset { result ≡ offset_of self }
    {
        match self {
            Part::Caller => 1,
            Part::SavedPc => 2,
            Part::Method => 3,
            Part::Closure => 4,
            Part::Context => 5,
            Part::Receiver => 8,
        }
    }
}

/// The place in the zone of the k-th word of a frame.
fn place(f: FrameRef, k: u32) -> u32
    requires page { f.page < 64 }
    requires word { f.at + k < 4096 }
    ensures place { result ≡ (f.page * 4096 + f.at) + k }
{
    f.page * PAGE_WORDS + f.at + k
}

/// The stack pages. The contracts see a list of pages, each a list of frames, the last one first.
#[derive(Drop)]
pub struct Frames {
    zone: Zone,
    heads: Vec<PageHead>,
}

impl Model for Frames {
    ghost use Rattle.std.specs.Prelude.{List};
    ghost use Rattle.cs_frame.specs.Frame.{Frame};
    ghost use Rattle.cs_frame.specs.Layout.{pages_of, AreFramesLaid};

    ghost Value = { List (List Frame) };

    ghost view = { λ f. pages_of f.zone 0 f.heads.items };

    ghost invariant = { λ f. AreFramesLaid f.zone f.heads.items };
}

impl Frames {
    /// Reserves `pages` empty pages, 1 to 64. The only error is that memory is refused.
    pub fn new(alloc: Global, pages: u32) -> Result<Frames, NoMemory>
        requires pages { (1 ≤ pages) × (pages ≤ 64) }
        ensures empty { IfOk result (λ f. f ≡ replicate pages []) }
    {
        let zone = Zone::new(alloc, pages * PAGE_WORDS)?;
        let heads = heads_of_empty_pages(alloc, pages)?;
        Ok(Frames { zone, heads })
    }

    /// How many pages there are.
    pub fn len(&self) -> u32
        ensures count { result ≡ length self.now }
    {
        self.heads.len() as u32
    }

    /// The words of the page that no frame takes: 4,096 less 10 for each frame and one for each
    /// value.
    pub fn room(&self, page: u32) -> u32
        requires page { page < length self.now }
        ensures room { result + frames_used (frames_of self.now page) ≡ 4096 }
        ensures stacked { AreStacked (frames_of self.now page) }
    {
        let head = self.heads[page as usize];
        page * PAGE_WORDS + PAGE_WORDS - head.end
    }

    /// The last frame of the page, or `None` exactly where the page is empty.
    pub fn top(&self, page: u32) -> Option<FrameRef>
        requires page { page < length self.now }
        ensures none { IsNone result ↔ (frames_of self.now page ≡ []) }
        ensures frame { IfSome result (λ f. f ≡ frame_ref page (top (frames_of self.now page))) }
        ensures last { IfSome result (IsTop self.now) }
        ensures stacked { AreStacked (frames_of self.now page) }
    {
        let head = self.heads[page as usize];
        if head.count == 0 {
            None
        } else {
            Some(FrameRef {
                page,
                at: head.frame - page * PAGE_WORDS,
            })
        }
    }

    /// Makes a frame. On an empty page it is the base frame, which begins at 0 and holds its
    /// receiver in the sender cell until `set_sender` is called. On any other page it stands above
    /// the last frame: receiver and arguments leave that frame's stack, and the new frame begins
    /// where the receiver stood. The saved pc and the context are nil.
    pub fn build(&mut self, page: u32, new: NewFrame) -> FrameRef
        requires page { page < length self.old }
        requires room { frames_used (frames_of self.old page) + 66 ≤ 4096 }
        requires size { new.args + new.fill ≤ 56 }
        requires birth { new.birth < 2 ^ 62 }
        requires caller { HasArguments new.args (frames_of self.old page) }
        requires values { HoldsValues new }
        ensures made { self.new ≡ on_page self.old page (called new) }
        ensures frame { result ≡ frame_ref page (top (frames_of self.new page)) }
        ensures top { IsTop self.new result }
    {
        let head = self.heads[page as usize];
        let first = page * PAGE_WORDS;
        let begin = begin_of(first, head, &new);
        let stack = begin.frame + OVERHEAD;
        self.zone.copy(head.end - new.args, stack, new.args);
        write_overhead(&mut self.zone, &begin, &new);
        fill_nil(&mut self.zone, stack + new.args, new.fill);
        self.heads[page as usize] = PageHead {
            frame: begin.frame,
            end: stack + new.args + new.fill,
            count: head.count + 1,
        };
        FrameRef {
            page,
            at: begin.frame - first,
        }
    }

    /// Takes the last frame off its page.
    pub fn drop_top(&mut self, page: u32)
        requires frame { 0 < length (frames_of self.old page) }
        ensures rest { self.new ≡ on_page self.old page rest_of }
    {
        let head = self.heads[page as usize];
        let link = self.zone.get(head.frame);
        // No cell of a frame that is gone keeps a link.
        self.zone.set(head.frame, 0);
        self.heads[page as usize] = PageHead {
            frame: link / 8,
            end: head.frame,
            count: head.count - 1,
        };
    }

    /// Puts a value on the stack of the last frame of a page.
    pub fn push(&mut self, f: FrameRef, v: Oop)
        requires top { IsTop self.old f }
        requires room { frames_used (frames_of self.old f.page) < 4096 }
        requires value { IsValue v.0 }
        ensures pushed { self.new ≡ on_page self.old f.page (on_top (value_pushed v.0)) }
    {
        let page = f.page as usize;
        let head = self.heads[page];
        self.zone.set(head.end, v.0);
        self.heads[page] = PageHead {
            frame: head.frame,
            end: head.end + 1,
            count: head.count,
        };
    }

    /// Takes the last value off the stack of the last frame of a page. Its word is free again, also
    /// where it was an argument.
    pub fn pop(&mut self, f: FrameRef) -> Oop
        requires top { IsTop self.old f }
        requires value { 0 < length (top (frames_of self.old f.page)).stack }
        ensures value { (top (frames_of self.old f.page)).stack
            ≡ (top (frames_of self.new f.page)).stack ++ result.0 ∷ [] }
        ensures popped { self.new ≡ on_page self.old f.page (on_top top_popped) }
    {
        let page = f.page as usize;
        let head = self.heads[page];
        let v = self.zone.get(head.end - 1);
        self.heads[page] = PageHead {
            frame: head.frame,
            end: head.end - 1,
            count: head.count,
        };
        Oop(v)
    }

    /// How many values the frame's stack holds.
    pub fn depth(&self, f: FrameRef) -> u32
        requires frame { IsFrame self.now f }
        ensures depth { result ≡ length (frame self.now f).stack }
    {
        let head = self.heads[f.page as usize];
        let at = place(f, 0);
        let mut frame = head.frame;
        let mut end = head.end;
        while frame != at {
            end = frame;
            frame = self.zone.get(frame) / 8;
        }
        end - frame - OVERHEAD
    }

    /// The i-th value of the frame's stack, counted from the first argument.
    pub fn slot(&self, f: FrameRef, i: u32) -> Oop
        requires frame { IsFrame self.now f }
        requires index { i < length (frame self.now f).stack }
        ensures value { result.0 ≡ slice_index (frame self.now f).stack i }
    {
        Oop(self.zone.get(place(f, OVERHEAD + i)))
    }

    /// Puts `v` in the place of the i-th value of the frame's stack.
    pub fn set_slot(&mut self, f: FrameRef, i: u32, v: Oop)
        requires frame { IsFrame self.old f }
        requires index { i < length (frame self.old f).stack }
        requires value { IsValue v.0 }
        ensures slot { self.new ≡ on_frame self.old f (with_value i v.0) }
    {
        self.zone.set(place(f, OVERHEAD + i), v.0);
    }

    /// The frame that called this one, or `None` exactly where this is the base frame of its page.
    pub fn caller(&self, f: FrameRef) -> Option<FrameRef>
        requires frame { IsFrame self.now f }
        ensures none { IsNone result ↔ IsBase self.now f }
        ensures caller { IfSome result (λ g. g ≡ frame_ref f.page (caller_of self.now f)) }
    {
        if f.at == 0 {
            None
        } else {
            let link = self.zone.get(place(f, 0));
            Some(FrameRef {
                page: f.page,
                at: link / 8 - f.page * PAGE_WORDS,
            })
        }
    }

    /// The birth of the frame's activation.
    pub fn birth(&self, f: FrameRef) -> u64
        requires frame { IsFrame self.now f }
        ensures birth { result ≡ (frame self.now f).birth }
    {
        let low = self.zone.get(place(f, BIRTH_LOW));
        let high = self.zone.get(place(f, BIRTH_HIGH));
        (low / 2) as u64 + (high / 2) as u64 * HALF
    }

    /// The pc at which the frame's activation goes on: nil or a SmallInteger.
    pub fn saved_pc(&self, f: FrameRef) -> Oop
        requires frame { IsFrame self.now f }
        ensures saved_pc { result.0 ≡ (frame self.now f).saved_pc }
        ensures pc { IsPc result.0 }
    {
        self.part(f, Part::SavedPc)
    }

    /// Saves the pc, nil or a SmallInteger.
    pub fn set_saved_pc(&mut self, f: FrameRef, v: Oop)
        requires frame { IsFrame self.old f }
        requires pc { IsPc v.0 }
        ensures saved_pc { self.new ≡ on_frame self.old f (with_saved_pc v.0) }
    {
        self.set_part(f, Part::SavedPc, v);
    }

    /// The method that runs in the frame.
    pub fn method(&self, f: FrameRef) -> Oop
        requires frame { IsFrame self.now f }
        ensures method { result.0 ≡ (frame self.now f).method }
    {
        self.part(f, Part::Method)
    }

    /// Changes the method that runs in the frame.
    pub fn set_method(&mut self, f: FrameRef, v: Oop)
        requires frame { IsFrame self.old f }
        requires value { IsValue v.0 }
        ensures method { self.new ≡ on_frame self.old f (with_method v.0) }
    {
        self.set_part(f, Part::Method, v);
    }

    /// The closure that the frame evaluates, or nil where it runs a method.
    pub fn closure(&self, f: FrameRef) -> Oop
        requires frame { IsFrame self.now f }
        ensures closure { result.0 ≡ (frame self.now f).closure }
    {
        self.part(f, Part::Closure)
    }

    /// Changes the frame's closure.
    pub fn set_closure(&mut self, f: FrameRef, v: Oop)
        requires frame { IsFrame self.old f }
        requires value { IsValue v.0 }
        ensures closure { self.new ≡ on_frame self.old f (with_closure v.0) }
    {
        self.set_part(f, Part::Closure, v);
    }

    /// The context that the frame is the body of, or nil where it has none.
    pub fn context(&self, f: FrameRef) -> Oop
        requires frame { IsFrame self.now f }
        ensures context { result.0 ≡ (frame self.now f).context }
    {
        self.part(f, Part::Context)
    }

    /// Changes the frame's context.
    pub fn set_context(&mut self, f: FrameRef, v: Oop)
        requires frame { IsFrame self.old f }
        requires value { IsValue v.0 }
        ensures context { self.new ≡ on_frame self.old f (with_context v.0) }
    {
        self.set_part(f, Part::Context, v);
    }

    /// The receiver of the frame's activation.
    pub fn receiver(&self, f: FrameRef) -> Oop
        requires frame { IsFrame self.now f }
        ensures receiver { result.0 ≡ (frame self.now f).receiver }
    {
        self.part(f, Part::Receiver)
    }

    /// Changes the receiver of the frame's activation.
    pub fn set_receiver(&mut self, f: FrameRef, v: Oop)
        requires frame { IsFrame self.old f }
        requires value { IsValue v.0 }
        ensures receiver { self.new ≡ on_frame self.old f (with_receiver v.0) }
    {
        self.set_part(f, Part::Receiver, v);
    }

    /// The sender of a base frame.
    pub fn sender(&self, f: FrameRef) -> Oop
        requires base { IsBase self.now f }
        ensures sender { result.0 ≡ (frame self.now f).caller }
    {
        self.part(f, Part::Caller)
    }

    /// Changes the sender of a base frame.
    pub fn set_sender(&mut self, f: FrameRef, ctx: Oop)
        requires base { IsBase self.old f }
        requires value { IsValue ctx.0 }
        ensures sender { self.new ≡ on_frame self.old f (with_caller ctx.0) }
    {
        self.set_part(f, Part::Caller, ctx);
    }

    fn part(&self, f: FrameRef, part: Part) -> Oop
        requires frame { IsFrame self.now f }
        ensures part { result.0 ≡ part_of part (frame self.now f) }
        ensures held { CanHold part result.0 }
    {
        Oop(self.zone.get(place(f, part.offset())))
    }

    fn set_part(&mut self, f: FrameRef, part: Part, v: Oop)
        requires frame { IsFrame self.old f }
        requires held { CanHold part v.0 }
        ensures part { self.new ≡ on_frame self.old f (with_part part v.0) }
    {
        self.zone.set(place(f, part.offset()), v.0);
    }
}

/// What a new frame's place on its page says of it.
#[derive(Clone, Copy)]
struct Begin {
    /// Where it begins, as a place in the zone.
    frame: u32,
    /// Where the frame that it links to begins.
    caller: u32,
    /// The word of its sender cell.
    sender: u32,
}

/// A base frame begins with its page, links to itself and holds its receiver for a sender. Any
/// other frame begins where the receiver stands on its caller's stack.
fn begin_of(first: u32, head: PageHead, new: &NewFrame) -> Begin
    requires caller { 0 < head.count → new.now.args + 1 ≤ head.end }
    ensures base { head.count ≡ 0
        → (result.frame ≡ first) × (result.caller ≡ first) × (result.sender ≡ new.now.receiver.0) }
    ensures later { 0 < head.count
        → (result.frame + (new.now.args + 1) ≡ head.end) × (result.caller ≡ head.frame) × (result.sender ≡ 65536) }
{
    if head.count == 0 {
        Begin {
            frame: first,
            caller: first,
            sender: new.receiver.0,
        }
    } else {
        Begin {
            frame: head.end - new.args - 1,
            caller: head.frame,
            sender: NIL,
        }
    }
}

/// Writes the overhead of a new frame.
fn write_overhead(zone: &mut Zone, begin: &Begin, new: &NewFrame)
    requires room { begin.now.frame + 10 ≤ length zone.old }
    requires fits { length zone.old < 2 ^ 32 }
    requires link { begin.now.caller * 8 + 4 < 2 ^ 32 }
    requires birth { new.now.birth < 2 ^ 62 }
    ensures outside { SameOutside zone.old zone.new begin.now.frame (begin.now.frame + 10) }
    ensures overhead { HasOverhead zone.new begin.now.frame (begin.now.caller * 8 + 4) begin.now.sender new.now }
{
    let at = begin.frame;
    let birth = new.birth;
    zone.set(at, begin.caller * 8 + 4);
    zone.set(at + 1, begin.sender);
    zone.set(at + 2, NIL);
    zone.set(at + 3, new.method.0);
    zone.set(at + 4, new.closure.0);
    zone.set(at + 5, NIL);
    zone.set(at + BIRTH_LOW, small_half(birth % HALF));
    zone.set(at + BIRTH_HIGH, small_half(birth / HALF));
    zone.set(at + 8, new.receiver.0);
    zone.set(at + 9, NIL);
}

/// Half a birth as the word of a SmallInteger.
fn small_half(half: u64) -> u32
    requires half { half < 2 ^ 31 }
    ensures word { result ≡ half_word half }
{
    (half * 2 + 1) as u32
}

/// Writes nil to the `n` words from `from` on.
fn fill_nil(zone: &mut Zone, from: u32, n: u32)
    requires room { from + n ≤ length zone.old }
    requires fits { length zone.old < 2 ^ 32 }
    ensures outside { SameOutside zone.old zone.new from (from + n) }
    ensures nils { AllAre zone.new from (from + n) 65536 }
{
    for k in 0..n {
        zone.set(from + k, NIL);
    }
}

fn heads_of_empty_pages(alloc: Global, pages: u32) -> Result<Vec<PageHead>, NoMemory>
    requires few { pages ≤ 64 }
    ensures heads { IfOk result (λ heads. heads.items ≡ empty_heads 0 pages) }
{
    let mut heads = Vec::new(alloc);
    for page in 0..pages {
        let first = page * PAGE_WORDS;
        heads.push(PageHead {
            frame: first,
            end: first,
            count: 0,
        })?;
    }
    Ok(heads)
}
