//! Elements that are found, each once.
ghost use Rattle.std.specs.Prelude.{◌≡◌, ◌<◌, ℕ, [], All, length, get_or, replicate, false, None, ◌≤◌, IfOk, IfSome, OnOk};
ghost use Rattle.reachability.specs.Found.{Finds, IsAmongFirst, IsQueueOf};

use std::alloc::{AllocError, Global};

/// The elements that are found so far: a mark for each element, and those that are marked in the order in which they
/// were found.
#[derive(Drop)]
pub(crate) struct Visited {
    marks: Vec<bool>,
    queue: Vec<usize>,
}

impl Visited {
    /// None of so many elements is found.
    pub(crate) fn none(alloc: Global, count: usize) -> Result<Visited, AllocError>
        ensures marks { IfOk result (λ found. found.marks.items ≡ replicate count false) }
        ensures queue { IfOk result (λ found. found.queue.items ≡ []) }
    {
        let marks = vec![in alloc; false; count]?;
        let queue = Vec::new(alloc);
        Ok(Visited { marks, queue })
    }

    /// Finds an element, unless it is found already.
    pub(crate) fn add(&mut self, element: usize) -> Result<(), AllocError>
        requires { element < length self.old.marks.items }
        ensures found { OnOk result (Finds (λ i. i ≡ element) self.old.marks.items self.old.queue.items
            self.new.marks.items self.new.queue.items) }
        ensures queue { IsQueueOf self.old.marks.items self.old.queue.items
            → OnOk result (IsQueueOf self.new.marks.items self.new.queue.items) }
        ensures count { length self.new.marks.items ≡ length self.old.marks.items }
    {
        if self.marks[element] {
            return Ok(());
        }
        self.queue.push(element)?;
        self.marks[element] = true;
        Ok(())
    }

    /// Finds each of these elements, unless it is found already.
    pub(crate) fn add_all(&mut self, elements: &[usize]) -> Result<(), AllocError>
        requires { All (λ element. element < length self.old.marks.items) elements.now }
        ensures found { OnOk result (Finds (IsAmongFirst (length elements.now) elements.now) self.old.marks.items self.old.queue.items
            self.new.marks.items self.new.queue.items) }
        ensures queue { IsQueueOf self.old.marks.items self.old.queue.items
            → OnOk result (IsQueueOf self.new.marks.items self.new.queue.items) }
        ensures count { length self.new.marks.items ≡ length self.old.marks.items }
    {
        for element in elements {
            self.add(*element)?;
        }
        Ok(())
    }

    /// The element that was found after so many others, if one was.
    pub(crate) fn at(&self, at: usize) -> Option<usize>
        ensures some { IfSome result
            (λ element. (at < length self.now.queue.items) × (element ≡ get_or self.now.queue.items at 0)) }
        ensures none { result ≡ None → length self.now.queue.items ≤ at }
    {
        self.queue.get(at).copied()
    }

    /// The marks.
    pub(crate) fn into_marks(self) -> Vec<bool>
        ensures { result ≡ self.marks }
    {
        self.marks
    }
}
