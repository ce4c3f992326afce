//! What is kept of the entries that match while they go by.
ghost use Rattle.std.specs.Prelude.{◌≡◌, ℕ, ◌+◌, ◌<◌, ◌≤◌, ◌^◌, List, [], ◌∷◌, ◌++◌, length, IfOk};
ghost use Rattle.mam_pages.specs.Spans.{Rises, cut_by, index_in, portion_by, within};

use crate::cut::PageCut;
use crate::span::Span;
use crate::window::Window;
use base_io::NoMemory;
use std::alloc::Global;

/// What is kept of the numbers of matching entries while they go by, in ascending order: how many there are, how many
/// of them stand before the candidates, how many are candidates, and the page so far.
#[derive(Drop)]
pub(crate) struct Tally {
    pub span: Span,
    pub count: u64,
    pub skipped: u64,
    pub found: u64,
    pub window: Window,
    ghost parts: { skipped + found ≤ count },
}

impl Tally {
    ghost use Rattle.mam_pages.specs.Tallies.{IsTally};

    /// The tally of no numbers.
    pub(crate) fn new(span: Span) -> Tally
        requires { span.most ≤ 100 }
        ensures { IsTally span [] result }
    {
        Tally {
            span,
            count: 0,
            skipped: 0,
            found: 0,
            window: Window::new(span.most as usize),
        }
    }

    /// Counts one number more.
    pub(crate) fn add(&mut self, number: u64)
        requires { self.old.count + 1 < 2 ^ 64 }
        ensures { (span : Span) → (numbers : List ℕ) → IsTally span numbers self.old → IsTally span (numbers ++ number ∷ []) self.new }
    {
        self.count += 1;
        if number <= self.span.after {
            self.skipped += 1;
        } else if number <= self.span.through {
            self.found += 1;
            if self.span.backward {
                self.window.put_last(number);
            } else {
                self.window.put_first(number);
            }
        }
    }

    /// The page of the numbers that went by.
    pub(crate) fn cut(&self, alloc: Global) -> Result<PageCut, NoMemory>
        ensures { (span : Span) → (numbers : List ℕ) → (high : ℕ) → Rises 0 high numbers → IsTally span numbers self.now →
            IfOk result (λ cut. cut ≡ cut_by span numbers) }
    {
        let numbers = self.window.numbers(alloc)?;
        Ok(PageCut {
            first_index: self.first_index(),
            numbers,
            count: self.count,
            complete: self.found <= self.span.most,
            backward: self.span.backward,
        })
    }

    /// The place of the page's first number among all.
    fn first_index(&self) -> u64
        ensures { (span : Span) → (numbers : List ℕ) → (high : ℕ) → Rises 0 high numbers → IsTally span numbers self.now →
            result ≡ index_in numbers (portion_by span (within span numbers)) }
    {
        if self.window.len() == 0 {
            0
        } else if self.span.backward {
            self.skipped + self.found.saturating_sub(self.span.most)
        } else {
            self.skipped
        }
    }
}
