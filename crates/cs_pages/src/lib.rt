//! The stack pages in order of last use: which page is free to take new frames, and which one was
//! used least recently, to be given up where none is free.
//!
//! The used pages are linked in a ring by their numbers, in both directions. The place behind the
//! last page closes the ring and stands for no page. Keeping frames on pages and giving up the least
//! recent one are this machine's own ways: no image can tell them.
#![tactic(auto)]

ghost use Rattle.std.specs.Prelude.{◌≡◌, ◌≢◌, ℕ, ◌+◌, ◌-◌, ◌<◌, ◌≤◌, ◌↔◌, List, [], ◌∷◌, length, slice_index, vec_len};
ghost use Rattle.std.specs.Prelude.{IsTrue, IsNone, IfOk, IfSome, IfNone, Contains};
ghost use Rattle.cs_pages.specs.Order.{Order, without, IsSoundOrder, IsFree};

use std::alloc::{AllocError, Global};
use std::marker::Model;

/// Pages numbered from 0, some of them used, and the used ones in order of last use.
#[derive(Drop)]
pub struct Pages {
    // For a used page the one used next before it, and for the place behind the last page the most
    // recent one. The least recent page leads to that place, and a free page to itself.
    older: Vec<u32>,
    // The same way back: for a used page the one used next after it, and for the place behind the last
    // page the least recent one. What stands there for a free page means nothing.
    newer: Vec<u32>,
    total: u32,
    used: u32,
}

impl Model for Pages {
    ghost use Rattle.cs_pages.specs.Order.{Order};
    ghost use Rattle.cs_pages.specs.Ring.{order_by_ring, IsRing};

    ghost Value = { Order };

    ghost view = { λ p. order_by_ring p.older.items p.total p.used };

    ghost invariant = { λ p. IsRing p.older.items p.newer.items (order_by_ring p.older.items p.total p.used) };
}

impl Pages {
    /// Makes that many pages, all of them free, with numbers from 0 on. Any number will do, and a
    /// machine has at most 64. An error comes only where memory is refused.
    pub fn new(alloc: Global, pages: u32) -> Result<Pages, AllocError>
        ensures free { IfOk result (λ made. made ≡ record { total = pages; recent = [] }) }
        ensures sound { IfOk result IsSoundOrder }
    {
        let older = self_links(alloc, pages)?;
        let newer = self_links(alloc, pages)?;
        Ok(Pages {
            older,
            newer,
            total: pages,
            used: 0,
        })
    }

    /// How many pages there are, used and free.
    pub fn len(&self) -> u32
        ensures total { result ≡ self.now.total }
    {
        self.total
    }

    /// How many pages are used.
    pub fn used(&self) -> u32
        ensures count { result ≡ length self.now.recent }
        ensures within { result ≤ self.now.total }
        ensures sound { IsSoundOrder self.now }
    {
        self.used
    }

    /// Whether a page is used, which is the condition of `touch` and `free`.
    pub fn is_used(&self, page: u32) -> bool
        requires in_range { page < self.now.total }
        ensures used { IsTrue result ↔ Contains self.now.recent page }
    {
        self.older[page as usize] != page
    }

    /// The page at place `k` from the most recent one, counted from 0. The condition is that more than
    /// `k` pages are used.
    pub fn order(&self, k: u32) -> u32
        requires within { k < length self.now.recent }
        ensures page { result ≡ slice_index self.now.recent k }
        ensures used { Contains self.now.recent result }
    {
        let mut page = self.older[self.total as usize];
        for _ in 0..k {
            page = self.older[page as usize];
        }
        page
    }

    /// The page whose last use is the longest ago. None exactly where no page is used.
    pub fn least(&self) -> Option<u32>
        ensures last { IfSome result (λ page. page ≡ slice_index self.now.recent (length self.now.recent - 1)) }
        ensures used { IfSome result (Contains self.now.recent) }
        ensures none { IsNone result ↔ (self.now.recent ≡ []) }
    {
        let page = self.newer[self.total as usize];
        if page == self.total { None } else { Some(page) }
    }

    /// Takes the free page of the lowest number, makes it the most recent and answers it. None exactly
    /// where all pages are used, and then nothing changes.
    pub fn take_free(&mut self) -> Option<u32>
        ensures taken { IfSome result (λ page. self.new ≡ record self.old { recent = page ∷ self.old.recent }) }
        ensures was_free { IfSome result (IsFree self.old) }
        ensures lowest { IfSome result (λ page. (q : ℕ) → q < page → Contains self.old.recent q) }
        ensures full { IsNone result ↔ (length self.old.recent ≡ self.old.total) }
        ensures none { IfNone result (self.new ≡ self.old) }
        ensures sound { IsSoundOrder self.new }
    {
        let Some(free) = self.first_free() else {
            return None;
        };
        self.put_first(free);
        Some(free)
    }

    /// Makes a used page the most recent. The others keep their order.
    pub fn touch(&mut self, page: u32)
        requires used { Contains self.old.recent page }
        ensures first { self.new ≡ record self.old { recent = page ∷ without page self.old.recent } }
        ensures same_pages { (q : ℕ) → Contains self.new.recent q ↔ Contains self.old.recent q }
        ensures count { length self.new.recent ≡ length self.old.recent }
        ensures sound { IsSoundOrder self.new }
    {
        self.free(page);
        self.put_first(page);
    }

    /// Gives a used page back, so that it is free. The others keep their order.
    pub fn free(&mut self, page: u32)
        requires used { Contains self.old.recent page }
        ensures freed { self.new ≡ record self.old { recent = without page self.old.recent } }
        ensures is_free { IsFree self.new page }
        ensures others { (q : ℕ) → q ≢ page → (Contains self.new.recent q ↔ Contains self.old.recent q) }
        ensures count { length self.new.recent + 1 ≡ length self.old.recent }
        ensures sound { IsSoundOrder self.new }
    {
        let older = self.older[page as usize];
        let newer = self.newer[page as usize];
        self.older[newer as usize] = older;
        self.newer[older as usize] = newer;
        self.older[page as usize] = page;
        self.used -= 1;
    }

    // The free page of the lowest number. It looks at the pages in turn, at most 64 of a machine's: a
    // second list, of the free pages, would have to be kept in every call.
    fn first_free(&self) -> Option<u32>
        ensures is_free { IfSome result (IsFree self.now) }
        ensures lowest { IfSome result (λ page. (q : ℕ) → q < page → Contains self.now.recent q) }
        ensures full { IsNone result ↔ (length self.now.recent ≡ self.now.total) }
        ensures sound { IsSoundOrder self.now }
    {
        for page in 0..self.total {
            if !self.is_used(page) {
                return Some(page);
            }
        }
        None
    }

    // Makes a free page the most recent of the used ones.
    fn put_first(&mut self, page: u32)
        requires free { IsFree self.old page }
        ensures first { self.new ≡ record self.old { recent = page ∷ self.old.recent } }
        ensures sound { IsSoundOrder self.new }
    {
        let end = self.total;
        let second = self.older[end as usize];
        self.older[page as usize] = second;
        self.newer[second as usize] = page;
        self.older[end as usize] = page;
        self.newer[page as usize] = end;
        self.used += 1;
    }
}

// The links of that many free pages and of the place behind the last, each to itself.
fn self_links(alloc: Global, pages: u32) -> Result<Vec<u32>, AllocError>
    ensures len { IfOk result (λ links. vec_len links ≡ pages + 1) }
    ensures same { IfOk result (λ links. (k : ℕ) → k ≤ pages → slice_index links.items k ≡ k) }
{
    let mut links = Vec::new(alloc);
    for page in 0..pages {
        links.push(page)?;
    }
    links.push(pages)?;
    Ok(links)
}
